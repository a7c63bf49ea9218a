// The identity fields of a page: whether the page is sound, where a field starts in it, and how long it is.
ghost use Rattle.std.specs.Prelude.{◌≡◌, ◌+◌, ◌<◌, ◌≤◌, ◌⊎◌, true, false, length, MatchOption, MatchResult};
ghost use Rattle.model.specs.Map.{page_size};
ghost use Rattle.model.specs.Readout.{sound_page, field_run, field_start, trimmed, field_length};
ghost use Rattle.address.specs.Meaning.{length_of};
ghost use Rattle.refusal.specs.Numbers.{number};
ghost use Rattle.readout.specs.Meaning.{field_number};

use address::{PAGE_LEN, Register, registers};
use codes::Page;
use refusal::Refusal;

#[derive(Clone, Copy, PartialEq, Eq)]
pub enum Field {
    VendorName,
    VendorOui,
    PartNumber,
    Revision,
    SerialNumber,
    DateCode,
}

impl TryFrom<u64> for Field {
    type Error = Refusal;

    ghost try_from_gives = { λ n r. MatchResult r (λ f. (field_number f ≡ n) × (1 ≤ n) × (n ≤ 6)) (λ e. (number e ≡ 12) × ((n < 1) ⊎ (6 < n))) };

    fn try_from(number: u64) -> Result<Field, Refusal> {
        match number {
            1 => Ok(Field::VendorName),
            2 => Ok(Field::VendorOui),
            3 => Ok(Field::PartNumber),
            4 => Ok(Field::Revision),
            5 => Ok(Field::SerialNumber),
            6 => Ok(Field::DateCode),
            _ => Err(Refusal::NoSuchField),
        }
    }
}

const BLANK: u8 = 0x20;

// A page that is sound: 128 bytes with both check codes right.
#[tactic(auto, unfolding(model::specs::Readout::sound_page))]
pub fn sound(page: &[u8]) -> Option<&Page>
    ensures { MatchOption result (sound_page page.now ≡ false) (λ p. (sound_page page.now ≡ true) × (p.now ≡ page.now)) }
{
    page.as_array::<PAGE_LEN>()
        .filter(|page| codes::are_right(page))
}

// How many bytes are left without trailing blanks.
fn trimmed(field: &[u8]) -> usize
    ensures left { result ≡ trimmed field.now 0 (length field.now) }
    ensures within { result ≤ length field.now }
{
    field
        .iter()
        .rposition(|byte| *byte != BLANK)
        .map_or(0, |last| last + 1)
}

impl Field {
    // The register of page 00h that it is.
    fn register(self) -> Register
        ensures { (result.first ≡ (field_run (field_number self)).first) × (length_of result ≡ (field_run (field_number self)).many) × (page_size ≤ result.first) × (length_of result ≤ 16) }
    {
        match self {
            Field::VendorName => registers::VENDOR_NAME,
            Field::VendorOui => registers::VENDOR_OUI,
            Field::PartNumber => registers::PART_NUMBER,
            Field::Revision => registers::REVISION,
            Field::SerialNumber => registers::SERIAL_NUMBER,
            Field::DateCode => registers::DATE_CODE,
        }
    }

    // Where it starts in its page.
    pub fn start(self) -> u8
        ensures { result ≡ field_start (field_number self) }
    {
        self.register().in_page() as u8
    }

    // How long it is: without trailing blanks, the OUI whole.
    #[tactic(auto, using(crate::proofs::Trimmed::trimmed_part))]
    pub fn length_in(self, page: &Page) -> u8
        ensures { result ≡ field_length page.now (field_number self) }
    {
        let register = self.register();
        let many = register.many();
        let from = register.in_page();
        match self {
            Field::VendorOui => many as u8,
            _ => trimmed(&page[from..from + many]) as u8,
        }
    }
}
