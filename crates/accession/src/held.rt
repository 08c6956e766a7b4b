// Where the last record of a map stands. Records are held in a table by their map's slot; those beyond its room are walked over.
ghost use Rattle.std.specs.Prelude.{◌≡◌, List, ℕ, ◌+◌, ◌≤◌, ◌<◌, ◌^◌, ◌%◌};
ghost use Rattle.catalogue.specs.Accession.{accession_count};
ghost use Rattle.catalogue.specs.AccessionLaws.Last.{last_below};
ghost use Rattle.catalogue.specs.AccessionLaws.Chain.{previous};
ghost use Rattle.catalogue.specs.AccessionLaws.MapLine.{is_of_map};
ghost use Rattle.accession.specs.Contract.{one_more};
ghost use Rattle.accession.specs.Held.{Holds};

use crate::records::accession_at;
use catalogue::slots::slot_of;

// The first `count` records, each in the slot of its map: the slot's last record, and of each record the one before it in its slot.
// Kept: positions are one more than they are, and 0 says that there is none. The tables stand on the stack, where there is no heap, and those of the long list
// have 640 KiB; `Option<u32>` takes eight bytes where u32 takes four, and so does `Option<NonZeroU32>` as it is compiled here: they would have 1,280 KiB.
#[derive(Drop)]
pub struct Held<const SLOTS: usize, const ROOM: usize> {
    count: usize,
    last: [u32; SLOTS],
    links: [u32; ROOM],
}

// Kept: the records are lent at each call. As a field, the contracts of `new` and `hold` would promise besides that they are the same list, to spare an
// argument of two calls.
impl<const SLOTS: usize, const ROOM: usize> Held<SLOTS, ROOM> {
    pub fn new() -> Self
        requires { (0 < SLOTS) × (SLOTS < 2 ^ 32) × (ROOM < 2 ^ 32) }
        ensures none { result.count ≡ 0 }
        ensures table { (records : List ℕ) → Holds records SLOTS result.count result.last result.links }
    {
        Held {
            count: 0,
            last: [0; SLOTS],
            links: [0; ROOM],
        }
    }

    // The position of the map's last record among those held.
    fn last_held(&self, records: &[u64], number: u64) -> Option<usize>
        requires { Holds records.now SLOTS self.now.count self.now.last self.now.links }
        ensures { one_more result ≡ last_below self.now.count (is_of_map records.now number) }
    {
        // Kept: std takes a chain of `successors` for endless, and `find` asks for an end, which is known here only because links fall.
        let mut next = self.last[slot_of::<SLOTS>(number)] as usize;
        while 0 < next {
            let k = next - 1;
            if accession_at(records, k).on_map == number {
                return Some(k);
            }
            next = self.links[k] as usize;
        }
        None
    }

    // The position of the last record of record i's map before it. Records beyond the table's room are walked over.
    pub fn last_of_map(&self, records: &[u64], i: usize) -> Option<usize>
        requires places { (i < accession_count records.now) × (self.now.count ≤ i) }
        requires table { Holds records.now SLOTS self.now.count self.now.last self.now.links }
        ensures { one_more result ≡ previous records.now i }
    {
        let number = accession_at(records, i).on_map;
        let behind = (self.count..i)
            .rev()
            .find(|&k| accession_at(records, k).on_map == number);
        // Kept: what `last_held` requires of the table is not inferred of a closure with const parameters, so that one of `or_else` would repeat it.
        match behind {
            Some(k) => Some(k),
            None => self.last_held(records, number),
        }
    }

    // Holds one record more, if there is room.
    pub fn hold(&mut self, records: &[u64])
        requires sizes { (self.old.count < accession_count records.now) × (ROOM < 2 ^ 32) }
        requires table { Holds records.now SLOTS self.old.count self.old.last self.old.links }
        ensures { (self.new.count ≤ self.old.count + 1) × Holds records.now SLOTS self.new.count self.new.last self.new.links }
    {
        if ROOM <= self.count {
            return;
        }
        let slot = slot_of::<SLOTS>(accession_at(records, self.count).on_map);
        self.links[self.count] = self.last[slot];
        self.last[slot] = (self.count + 1) as u32;
        self.count += 1;
    }
}
