//! A panel file that is known to be good, and its records one by one.

ghost use Rattle.std.specs.Prelude.{◌≡◌, true, ◌≤◌, Some, length, map, take};
ghost use Rattle.panel_file.specs.Panel.{records_of, records_from, records_in, is_done, counts_of, buttons_of};

use crate::{Broken, Button, Counts, Record, check, record_at};

/// The most buttons that a file of 65,536 bytes holds.
pub const MOST_BUTTONS: usize = 1260;

/// The bytes of a file that was checked.
#[derive(Clone, Copy)]
pub struct PanelFile<'a> {
    bytes: &'a [u8],
    counts: Counts,
    ghost good: { is_done (records_of bytes.now) ≡ true },
    ghost counted: { counts ≡ counts_of (records_in (records_of bytes.now)) },
}

impl<'a> PanelFile<'a> {
    ghost use Rattle.panel_file.specs.File.{records, new_answer, records_left, button_at_offset};

    /// The bytes as a panel file, if they are a good one.
    pub fn new(bytes: &'a [u8]) -> Result<PanelFile<'a>, Broken>
        ensures { new_answer result ≡ records_of bytes.now }
    {
        let counts = check(bytes)?;
        Ok(PanelFile { bytes, counts })
    }

    /// How many records of each kind there are.
    pub fn counts(&self) -> Counts
        ensures value { result ≡ counts_of (records self.now) }
        ensures most { result.touches ≤ 5461 }
    {
        self.counts
    }

    /// The records, in file order.
    pub fn records(&self) -> Records<'a>
        ensures value { records_left result ≡ records self.now }
        ensures most { length (records self.now) ≤ 5461 }
    {
        Records {
            bytes: self.bytes,
            at: 0,
        }
    }

    /// Where the buttons' records start, in file order, at the front of `offsets`; the answer counts them.
    pub fn button_offsets(&self, offsets: &mut [u16; 1260]) -> usize
        ensures most { result ≤ 1260 }
        ensures buttons { map (button_at_offset self.now) (take result offsets.new)
            ≡ map Some (buttons_of (records self.now)) }
    {
        let mut at = 0;
        let mut n = 0;
        while let Ok(Some((record, next))) = record_at(self.bytes, at) {
            if let Record::Button(_) = record {
                offsets[n] = at as u16;
                n += 1;
            }
            at = next;
        }
        n
    }

    /// The button whose record starts at an offset, if one does.
    #[tactic(auto, unfolding(crate::specs::File::button_at_offset, crate::specs::File::button_in, crate::specs::Panel::record_answer))]
    pub fn button_at(&self, offset: u16) -> Option<Button>
        ensures { result ≡ button_at_offset self.now offset }
    {
        let Ok(Some((Record::Button(button), _))) = record_at(self.bytes, usize::from(offset))
        else {
            return None;
        };
        Some(button)
    }
}

/// The records from an offset of a good file on.
#[derive(Drop)]
pub struct Records<'a> {
    bytes: &'a [u8],
    at: usize,
    ghost good: { is_done (records_from bytes.now at) ≡ true },
}

impl Iterator for Records<'_> {
    ghost use Rattle.std.specs.Iterator.{YieldsFirst, item_count};
    ghost use Rattle.panel_file.specs.File.{records_left};

    type Item = Record;

    ghost next_gives = { YieldsFirst records_left };

    ghost remaining = { item_count records_left };

    fn next(&mut self) -> Option<Record> {
        let Ok(Some((record, next))) = record_at(self.bytes, self.at) else {
            return None;
        };
        self.at = next;
        Some(record)
    }
}
