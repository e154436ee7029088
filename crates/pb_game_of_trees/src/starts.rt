//! Where to look for a number among numbers that rise. A binary search among all of them goes
//! through memory that lies far apart; by its first bits a number is found among few.
ghost use Rattle.std.specs.Prelude.{◌≡◌, ◌<◌, IfSome, length, slice_index};

use std::alloc::{AllocError, Global};

/// How many bits of a number don't count at most.
const MOST_SHIFT: u32 = 63;

/// For the first bits of a number about which of the numbers that rise begin with these. An answer
/// is tested wherever it is used, so nothing has to hold of it.
#[derive(Drop)]
pub(crate) struct Starts {
    /// Where the numbers with each value of the first bits begin, and behind them those of the
    /// next value.
    places: Vec<u32>,
    /// How many bits don't count.
    shift: u32,
    ghost small: { shift < 64 },
}

/// How many bits don't count, so that the first ones have no more values than there are numbers.
fn shift_of(greatest: u64, count: u64) -> u32
    ensures { result < 64 }
{
    for shift in 0..MOST_SHIFT {
        if greatest >> shift <= count {
            return shift;
        }
    }
    MOST_SHIFT
}

/// A place as a number of 32 bits.
fn narrow(place: usize) -> u32 {
    place.min(u32::MAX as usize) as u32
}

impl Starts {
    /// Where to look among these numbers, which rise.
    pub fn new(alloc: Global, numbers: &[u64]) -> Result<Starts, AllocError> {
        let greatest = numbers.last().copied().unwrap_or(0);
        let shift = shift_of(greatest, numbers.len() as u64);
        let values = (greatest >> shift) as usize;
        let mut places = Vec::with_capacity(alloc, values.saturating_add(2))?;
        for k in 0..numbers.len() {
            let value = (numbers[k] >> shift) as usize;
            if places.len() <= value {
                places.resize(value.saturating_add(1), narrow(k))?;
            }
        }
        places.push(narrow(numbers.len()))?;
        Ok(Starts { places, shift })
    }

    /// The place of a number, if it is found where it should be.
    pub fn find(&self, numbers: &[u64], number: u64) -> Option<usize>
        ensures { IfSome result (λ place. (place < length numbers.now)
            × (slice_index numbers.now place ≡ number)) }
    {
        let value = (number >> self.shift) as usize;
        let mut from = self.place(value);
        let mut to = self.place(value.saturating_add(1)).min(numbers.len());
        'halves: while from < to {
            let middle = from + (to - from) / 2;
            if numbers[middle] < number {
                from = middle + 1;
            } else {
                to = middle;
            }
        }
        if from < numbers.len() && numbers[from] == number {
            return Some(from);
        }
        None
    }

    /// Where the numbers with these first bits begin.
    #[inline(always)]
    fn place(&self, value: usize) -> usize {
        if value < self.places.len() {
            return self.places[value] as usize;
        }
        0
    }
}
