// The check codes of a page: a running u8 by wrapping addition, its meaning the sum modulo 256.
// Proved: each function gives the definition that its contract cites (document 01, "Reset").
#![tactic(auto)]

ghost use Rattle.std.specs.Prelude.{◌≡◌, ◌-◌, ◌≤◌, ◌==◌};
ghost use Rattle.laws.specs.Tests.{◌to◌};
ghost use Rattle.laws.specs.Lists.{at};
ghost use Rattle.model.specs.Map.{page_size};
ghost use Rattle.model.specs.Reset.{check_code, page_part, codes_right};

use address::{Register, registers};

// A page by its own bytes.
pub type Page = [u8; address::PAGE_LEN];

// The check code of bytes. Apart from `log_block`'s `sum16`: one fold of the library each, which a generic one would not shorten.
pub fn check_code(s: &[u8]) -> u8
    ensures { result ≡ check_code s.now }
{
    s.iter().fold(0, |code, byte| code.wrapping_add(*byte))
}

// The check code of the bytes of a register, of its page: not one of lower memory, which has its bytes in no page. No type parts the two, since a
// register of either has all else in common.
fn code_of(page: &Page, r: Register) -> u8
    requires { page_size ≤ r.first }
    ensures { result ≡ check_code (page_part page.now (r.first to r.last)) }
{
    let from = r.in_page();
    check_code(&page[from..from + r.many()])
}

// Whether the byte of a register is the check code of another's bytes.
fn has_code(page: &Page, code: Register, r: Register) -> bool
    requires { (page_size ≤ r.first) × (page_size ≤ code.first) }
    ensures { result ≡ (at page.now (code.first - page_size) == check_code (page_part page.now (r.first to r.last))) }
{
    page[code.in_page()] == code_of(page, r)
}

// Whether both check codes of a page 00h are right, each that of the run before it.
#[tactic(auto, unfolding(model::specs::Reset::codes_right))]
pub fn are_right(page: &Page) -> bool
    ensures { result ≡ codes_right page.now }
{
    has_code(page, registers::BASE_CODE, registers::BASE)
        & has_code(page, registers::EXTENDED_CODE, registers::EXTENDED)
}
