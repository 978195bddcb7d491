// What a rule's title says, by the sheet's numbers: whether the rule is a Fallback, whether it replaces a list, and its state.
ghost use Rattle.std.specs.Prelude.{◌≡◌, ◌&&◌, not, cond, ◌<◌, ◌^◌};
ghost use Rattle.definition.specs.Rule.{operator_of, kind_of};
ghost use Rattle.definition.specs.Stop.{is_fallback};
ghost use Rattle.definition.specs.Point.{is_normal, is_closed};
ghost use Rattle.codes.specs.Number.{state_number, state_of};
ghost use Rattle.codes.specs.Title.{as_operator, as_kind};

#[derive(Clone, Copy, PartialEq, Eq)]
pub enum Operator {
    Normal,
    Additional,
    Fallback,
}

// Each of a sheet's numbers names an operator.
impl From<u64> for Operator {
    ghost from_gives = { λ number operator. as_operator operator ≡ operator_of number };

    fn from(number: u64) -> Operator {
        match number {
            0 => Operator::Normal,
            1 => Operator::Additional,
            _ => Operator::Fallback,
        }
    }
}

#[derive(Clone, Copy, PartialEq, Eq)]
pub enum Kind {
    Open,
    Closed,
    Unknown,
}

// And each names a kind.
impl From<u64> for Kind {
    ghost from_gives = { λ number kind. as_kind kind ≡ kind_of number };

    fn from(number: u64) -> Kind {
        match number {
            0 => Kind::Open,
            1 => Kind::Closed,
            _ => Kind::Unknown,
        }
    }
}

pub fn is_fallback(operator: u64) -> bool
    ensures { result ≡ is_fallback (operator_of operator) }
{
    Operator::from(operator) == Operator::Fallback
}

// "A Normal rule that isn't Closed replaces the list": 1, else 0.
pub fn replace_number(operator: u64, kind: u64) -> u8
    ensures { result ≡ cond (is_normal (operator_of operator) && not (is_closed (kind_of kind))) 1 0 }
{
    let replaces = Operator::from(operator) == Operator::Normal && Kind::from(kind) != Kind::Closed;
    u8::from(replaces)
}

// The number of a state, from its kind and its comment.
pub fn state_number(kind: u64, comment: u64) -> u32
    requires { comment < 2 ^ 24 }
    ensures { result ≡ state_number (state_of (kind_of kind) comment) }
{
    let commented = comment as u32 * 3;
    match Kind::from(kind) {
        Kind::Open => commented,
        Kind::Closed => commented + 1,
        Kind::Unknown => commented + 2,
    }
}
