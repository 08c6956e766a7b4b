// What `separation_list` exports to C.

ghost use Rattle.separations.specs.Listing.{Lists};
ghost use Rattle.refusals.specs.Answers.{answer_in};

use refusals::answers::Answer;

// The separations of each two of these boundaries, on a map of these sides.
#[unsafe(no_mangle)]
pub extern "C" fn jenwyllt_separations(
    width: u64,
    height: u64,
    boundaries: &[u64],
    output: &mut [u64],
) -> Answer
    ensures { Lists width height boundaries.now output.old (answer_in result) output.new }
{
    separation_list::separation_list_separations(width, height, boundaries, output)
}
