// Maps in a table of few slots: a map's slot is the remainder of its number.
ghost use Rattle.std.specs.Prelude.{◌≡◌, ◌<◌, ◌%◌};

pub fn slot_of<const SLOTS: usize>(map: u64) -> usize
    requires { 0 < SLOTS }
    ensures { (result ≡ map % SLOTS) × (result < SLOTS) }
{
    (map % SLOTS as u64) as usize
}
