// The listing of a batch: from the bytes read to the bytes to print, in a text buffer that the caller lends.
#![tactic(auto)]

ghost use Rattle.std.specs.Prelude.{◌≡◌, ◌+◌, ◌*◌, ◌≤◌, length};
ghost use Rattle.listing.specs.Prefix.{IsPrefixLen};
ghost use Rattle.words.specs.Dwords.{dwords_of};
ghost use Rattle.text.specs.Writing.{HasRoom, Wrote};
ghost use Rattle.listing.specs.Listing.{odd_text, batch_text, text_of, listed_in};
ghost use Rattle.listing.specs.RecordLines.{KindsNamed, record_lines};

use chips::{Chip, Refusal, Target};
use reading::{Refused, decide};
use records::fill;
use text::Page;

// The lines of the first n records, of 16 words each: words 0 to 2 are kind, place and total.
fn lines(page: &mut Page, records: &[u32], n: usize)
    requires { (n ≤ 1024) × (16 * n ≤ length records.now) × HasRoom page.old (46 * n) × KindsNamed records.now n }
    ensures { Wrote page.old (record_lines records.now n) page.new × (page.new.at ≤ page.old.at + 46 * n) }
{
    for record in records[..16 * n].chunks_exact(16) {
        page.line(record[1], record[0], record[2]);
    }
}

// 17, for an input that is not a multiple of 4 bytes.
fn odd(page: &mut Page, input: &[u8])
    requires { HasRoom page.old 53 }
    ensures { Wrote page.old (odd_text input.now) page.new × (page.new.at ≤ page.old.at + 53) }
{
    let number = Refusal::PartialDword.number();
    page.refused(number as u64, (input.len() / 4) as u64);
}

// The lines of a batch of whole dwords, at most 1,024 of 46 bytes and one of 51. There is room for a record to each dword, so 10 never
// occurs.
fn outcome(page: &mut Page, chip: Chip, input: &[u8])
    requires { (length input.now ≤ 4096) × HasRoom page.old 47155 }
    ensures { Wrote page.old (batch_text chip (dwords_of input.now)) page.new × (page.new.at ≤ page.old.at + 47155) }
{
    let target = Target {
        chip,
        capacity: 2048,
    };
    let mut records = [0u32; 16384];
    match decide(target, input, 16384) {
        Err(Refused { refusal, place }) => page.refused(refusal.number() as u64, place as u64),
        Ok(extent) => {
            fill(target, input, &mut records);
            lines(page, &records, extent.commands);
            page.accepted(extent.commands as u64, extent.dwords as u64);
        }
    }
}

// The text of an input of any length, for a chip, and how many bytes it has: 47,161 at most. The rest of the buffer is as it was: so a
// number, and not the slice of them.
pub fn list(chip: Chip, input: &[u8], text: &mut [u8; 49152]) -> usize
    ensures { (text.new ≡ listed_in chip input.now text.old)
        × (result ≡ length (text_of chip input.now)) × IsPrefixLen result text.new }
{
    let mut page = Page { text, at: 0 };
    page.put(b"MPL 1\n");
    if 4096 < input.len() {
        page.refused(Refusal::TooLong.number() as u64, 0);
        return page.at;
    }
    if input.len() % 4 != 0 {
        odd(&mut page, input);
        return page.at;
    }
    outcome(&mut page, chip, input);
    page.at
}
