// A number of an answer file.
ghost use Rattle.std.specs.Prelude.{◌≡◌, ◌≤◌, length};
ghost use Rattle.std.proofs.Math.Option.{some};
ghost use Rattle.lines.specs.Bytes.{digit};
ghost use Rattle.solver.specs.Number.{number_of};
ghost use Rattle.cells.specs.Number.{literal_from, with_sign, digits_from, short, numeral_from};

// What a number says: a variable, and whether it is true.
#[derive(Clone, Copy, Debug, PartialEq, Eq)]
pub struct Literal {
    pub variable: usize,
    pub sign: bool,
}

#[tactic(auto, using(crate::proofs::Numbers::digit_in, crate::proofs::Numbers::digit_under, crate::proofs::Numbers::digit_over))]
fn is_digit(b: u8) -> bool
    ensures { result ≡ digit b }
{
    matches!(b, b'0'..=b'9')
}

// "a minus allowed except on 0"
fn signed(variable: usize, sign: bool) -> Option<Literal>
    ensures { literal_from result ≡ with_sign sign (some variable) }
{
    if variable == 0 && !sign {
        return None;
    }
    Some(Literal { variable, sign })
}

// The number of these digits.
fn read_digits(digits: &[u8], sign: bool) -> Option<Literal>
    requires { length digits.now ≤ 5 }
    ensures { literal_from result ≡ digits_from sign 0 digits.now }
{
    let mut variable: usize = 0;
    for digit in digits {
        if !is_digit(*digit) {
            return None;
        }
        variable = variable * 10 + usize::from(*digit - b'0');
    }
    signed(variable, sign)
}

// "no leading zeros, at most five digits"
fn is_short(digits: &[u8]) -> bool
    ensures { result ≡ short digits.now }
{
    match digits {
        [] => false,
        [_] => true,
        [first, ..] => *first != b'0' && digits.len() <= 5,
    }
}

// The number behind its minus, if it has one.
fn read_numeral(digits: &[u8], sign: bool) -> Option<Literal>
    ensures { literal_from result ≡ numeral_from sign digits.now }
{
    if !is_short(digits) {
        return None;
    }
    read_digits(digits, sign)
}

// What the part says; None where its bytes are no number.
pub fn read_number(part: &[u8]) -> Option<Literal>
    ensures { literal_from result ≡ number_of part.now }
{
    match part {
        [b'-', digits @ ..] => read_numeral(digits, false),
        digits => read_numeral(digits, true),
    }
}
