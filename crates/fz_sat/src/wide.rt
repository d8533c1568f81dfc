//! Sums that may exceed 128 bits.

ghost use Rattle.std.specs.Prelude.{◌≡◌, ◌-◌, ◌^◌, pos, ◌+ℤ◌, ◌*ℤ◌};
ghost use Rattle.fz_sat.specs.Sums.{IsBounded, IsNear, IsReduced, LiesAs, number_of};

/// What one turn counts for.
const TURN: i128 = 1 << 126;

/// A number that may exceed 128 bits: so many turns of 2^126, and a rest that is smaller in size than one turn.
#[derive(Clone, Copy)]
pub struct Wide {
    pub turns: i64,
    pub rest: i128,
}

impl Wide {
    /// Zero.
    pub const ZERO: Wide = Wide { turns: 0, rest: 0 };

    /// The sum with one more number.
    pub fn plus(self, number: i128) -> Wide
        requires reduced { IsReduced self }
        requires room { IsBounded (2 ^ 63 - 2) self.turns }
        requires bounded { IsBounded (2 ^ 126) number }
        ensures value { number_of result ≡ number_of self +ℤ number }
        ensures reduced { IsReduced result }
        ensures near { IsNear self.turns result.turns }
    {
        let rest = self.rest + number;
        if rest >= TURN {
            Wide {
                turns: self.turns + 1,
                rest: rest - TURN,
            }
        } else if rest <= -TURN {
            Wide {
                turns: self.turns - 1,
                rest: rest + TURN,
            }
        } else {
            Wide {
                turns: self.turns,
                rest,
            }
        }
    }

    /// A number that lies to each number of 64 bits as this one does.
    pub fn clamped(self) -> i128
        requires { IsReduced self }
        ensures { LiesAs result (number_of self) }
    {
        match self.turns {
            0 => self.rest,
            1 => self.rest + TURN,
            -1 => self.rest - TURN,
            turns if turns > 0 => i128::MAX,
            _ => i128::MIN,
        }
    }
}

/// The product of two numbers.
pub fn product(left: i64, right: i64) -> i128
    ensures product { result ≡ left *ℤ right }
    ensures bounded { IsBounded (2 ^ 126) result }
{
    i128::from(left) * i128::from(right)
}
