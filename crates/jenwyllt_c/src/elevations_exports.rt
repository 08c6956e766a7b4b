// What `elevations` exports to C.

ghost use Rattle.std.specs.Prelude.{◌≡◌, [], ◌∷◌};
ghost use Rattle.definitions.specs.RegionRecord.{dominance_of};
ghost use Rattle.elevations.specs.Forms.{answer_of};

use elevations::ElevationsAnswer;

// The dominance of so many cells, of which so many have elevation 0, 1, 2 and 3. Counts may be any numbers: their sum need not be that of the cells.
#[unsafe(no_mangle)]
pub extern "C" fn jenwyllt_dominance(
    cells: u32,
    count_0: u32,
    count_1: u32,
    count_2: u32,
    count_3: u32,
) -> ElevationsAnswer
    ensures { result ≡ answer_of (dominance_of cells (count_0 ∷ count_1 ∷ count_2 ∷ count_3 ∷ [])) }
{
    elevations::elevations_dominance(cells, count_0, count_1, count_2, count_3)
}
