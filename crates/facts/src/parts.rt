// Whole numbers by their two parts. Nothing is refused here.
ghost use Rattle.facts.specs.Parts.{PartsOf};

// A whole number: what it is above 0 less what it is below.
#[derive(Clone, Copy)]
pub struct Parts {
    pub above: u64,
    pub below: u64,
}

// One of the parts is 0. The least number of all has room too.
impl From<i64> for Parts {
    ghost from_gives = { PartsOf };

    fn from(number: i64) -> Parts {
        let size = number.unsigned_abs();
        if number < 0 {
            Parts {
                above: 0,
                below: size,
            }
        } else {
            Parts {
                above: size,
                below: 0,
            }
        }
    }
}
