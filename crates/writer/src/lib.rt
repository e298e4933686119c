// The lines of a formula, written as bytes into a lent buffer. Each `put_` function writes from place `at` on, returns the place behind
// what it wrote and leaves every other byte as it was; each `_size` function tells how many bytes that is. The place travels beside the
// bytes: were both in a struct, each clause would have to say too that it still holds the bytes that were lent; and of a buffer whose rest
// a function hands back, its caller knows nothing in front. A literal travels as one number: 2 * v for variable v, 2 * v + 1 for v negated.
#![tactic(auto)]

ghost use Rattle.std.specs.Prelude.{◌≡◌, [], ◌∷◌, ◌++◌, ◌+◌, ◌/◌, ◌%◌, ◌≤◌, ◌<◌, leb, length};
ghost use Rattle.lists.specs.Written.{Wrote};
ghost use Rattle.planning.specs.Text.{decimal, lit_text, clause_line, header_line};
ghost use Rattle.writer.specs.Literal.{lit_in, clause_in};

// One byte.
pub fn put_byte(out: &mut [u8], at: usize, b: u8) -> usize
    requires { at < length out.old }
    ensures { Wrote out.old at (b ∷ []) out.new result }
{
    out[at] = b;
    at + 1
}

// Some bytes. One by one: what the library copies a slice by would want `memmove` of whoever links the calls from C.
pub fn put_bytes(out: &mut [u8], at: usize, bytes: &[u8]) -> usize
    requires { at + length bytes.now ≤ length out.old }
    ensures { Wrote out.old at bytes.now out.new result }
{
    let mut a = at;
    for b in bytes {
        a = put_byte(out, a, *b);
    }
    a
}

// A number's digits.
fn decimal_size(n: u64) -> usize
    ensures { result ≡ length (decimal n) }
{
    if n < 10 { 1 } else { decimal_size(n / 10) + 1 }
}

// The last two digits of a number.
fn put_pair(out: &mut [u8], at: usize, n: u64) -> usize
    requires { at + 2 ≤ length out.old }
    ensures { Wrote out.old at ((48 + n / 10 % 10) ∷ (48 + n % 10) ∷ []) out.new result }
{
    let pair = [(48 + n / 10 % 10) as u8, (48 + n % 10) as u8];
    let end = at + pair.len();
    out[at..end].copy_from_slice(&pair);
    end
}

// The digits of a number below 100.
fn put_short(out: &mut [u8], at: usize, n: u64) -> usize
    requires { (n < 100) × (at + length (decimal n) ≤ length out.old) }
    ensures { Wrote out.old at (decimal n) out.new result }
{
    if n < 10 {
        put_byte(out, at, (48 + n) as u8)
    } else {
        put_pair(out, at, n)
    }
}

// A variable has at most four digits, so it goes no deeper.
pub fn put_decimal(out: &mut [u8], at: usize, n: u64) -> usize
    requires { at + length (decimal n) ≤ length out.old }
    ensures { Wrote out.old at (decimal n) out.new result }
{
    if n < 100 {
        return put_short(out, at, n);
    }
    if n < 10000 {
        let a = put_short(out, at, n / 100);
        return put_pair(out, a, n);
    }
    let b = put_decimal(out, at, n / 100);
    put_pair(out, b, n)
}

// A literal's number and the space behind it.
fn literal_size(code: u64) -> usize
    ensures { result ≡ length (lit_text (lit_in code) ++ (32 ∷ [])) }
{
    decimal_size(code / 2) + (code % 2) as usize + 1
}

fn put_literal(out: &mut [u8], at: usize, code: u64) -> usize
    requires { at + length (lit_text (lit_in code) ++ (32 ∷ [])) ≤ length out.old }
    ensures { Wrote out.old at (lit_text (lit_in code) ++ (32 ∷ [])) out.new result }
{
    let a = if code % 2 == 0 {
        at
    } else {
        put_byte(out, at, b'-')
    };
    let b = put_decimal(out, a, code / 2);
    put_byte(out, b, b' ')
}

// A clause's line: its literals, a 0 and LF.
fn clause_size(lits: &[u64]) -> usize
    requires { length lits.now ≤ 4096 }
    ensures { result ≡ length (clause_line (clause_in lits.now)) }
{
    let mut n = 2;
    for code in lits {
        n += literal_size(*code);
    }
    n
}

// Has it at most so many bytes? A literal takes at most 22, so it is measured only where they are few.
pub fn clause_fits(lits: &[u64], room: usize) -> bool
    requires { length lits.now ≤ 136 }
    ensures { result ≡ leb (length (clause_line (clause_in lits.now))) room }
{
    room >= 3000 || clause_size(lits) <= room
}

pub fn put_clause(out: &mut [u8], at: usize, lits: &[u64]) -> usize
    requires { at + length (clause_line (clause_in lits.now)) ≤ length out.old }
    ensures { Wrote out.old at (clause_line (clause_in lits.now)) out.new result }
{
    let mut a = at;
    for code in lits {
        a = put_literal(out, a, *code);
    }
    put_bytes(out, a, b"0\n")
}

// The header's line: `p cnf`, v variables, c clauses and LF.
pub fn header_size(v: u64, c: u64) -> usize
    ensures { result ≡ length (header_line v c) }
{
    decimal_size(v) + decimal_size(c) + 8
}

pub fn put_header(out: &mut [u8], at: usize, v: u64, c: u64) -> usize
    requires { at + length (header_line v c) ≤ length out.old }
    ensures { Wrote out.old at (header_line v c) out.new result }
{
    let a = put_bytes(out, at, b"p cnf ");
    let b = put_decimal(out, a, v);
    let d = put_byte(out, b, b' ');
    let e = put_decimal(out, d, c);
    put_byte(out, e, b'\n')
}
