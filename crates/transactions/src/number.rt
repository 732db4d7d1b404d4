// The number of a transaction: 1 to 8.
//
// Where one stands nothing has to be asked about its range: a number that is read becomes one by row 2 of the table,
// and its place in an array of the eight is below 8.
ghost use Rattle.std.specs.Prelude.{◌≡◌, ◌+◌, ◌<◌};
ghost use Rattle.boosting.specs.Recovery.{rising};

use refusals::Refusal;
use std::array;
use std::marker::Model;

#[derive(Clone, Copy, Debug, PartialEq, Eq)]
pub struct TransactionNumber {
    number: usize,
}

impl Model for TransactionNumber {
    ghost use Rattle.std.specs.Prelude.{ℕ, ◌≤◌};

    ghost Value = { ℕ };

    ghost view = { λ e. e.number };

    ghost invariant = { λ e. (1 ≤ e.number) × (e.number ≤ 8) };

    ghost inverse = { λ e. record { number = e } };
}

impl TryFrom<u64> for TransactionNumber {
    ghost use Rattle.transactions.specs.Number.{GivesNumber};

    type Error = Refusal;

    ghost try_from_gives = { GivesNumber };

    #[inline(always)]
    fn try_from(number: u64) -> Result<TransactionNumber, Refusal> {
        if !(1..=8).contains(&number) {
            return Err(Refusal::TransactionOutOfRange);
        }
        // By `as`: `usize` has no `From<u64>`, and the test has made the number small.
        Ok(TransactionNumber {
            number: number as usize,
        })
    }
}

impl From<TransactionNumber> for usize {
    ghost from_gives = { λ e number. number ≡ e };

    #[inline(always)]
    fn from(e: TransactionNumber) -> usize {
        e.number
    }
}

impl TransactionNumber {
    // All eight, in rising order.
    #[tactic(auto, unfolding(boosting::specs::Recovery::rising))]
    pub fn all() -> [TransactionNumber; 8]
        ensures { result ≡ rising }
    {
        array::from_fn(
            |place|
                requires { place < 8 }
            { TransactionNumber { number: place + 1 } },
        )
    }

    // Its place among the eight.
    #[inline(always)]
    pub fn index(self) -> usize
        ensures place { result + 1 ≡ self }
        ensures fits { result < 8 }
    {
        self.number - 1
    }
}
