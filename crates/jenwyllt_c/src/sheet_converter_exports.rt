// What `sheet_converter` exports to C.

ghost use Rattle.refusals.specs.Answers.{answer_in};
ghost use Rattle.map_sheets.specs.Converting.{Converts};

use refusals::answers::Answer;

// Converts a sheet of kind 1 to kind 3.
#[unsafe(no_mangle)]
pub extern "C" fn jenwyllt_convert_sheet(bytes: &[u8], out: &mut [u8]) -> Answer
    ensures { Converts bytes.now out.old (answer_in result) out.new }
{
    sheet_converter::sheet_converter_convert_sheet(bytes, out)
}
