// A record in a buffer: its words, and those of the VFE's record that it names.
ghost use Rattle.std.specs.Prelude.{◌≡◌, ◌<◌, ◌≤◌, ◌+◌, ◌*◌, length};
ghost use Rattle.objects.specs.Recorded.{word_at, vfe_word_at};

use records::slot_of;
use words::Element;

// Record `at` of a buffer, in which all its words lie.
#[derive(Drop)]
pub struct Record<'a, T: Element> {
    pub records: &'a [T],
    pub at: usize,
    pub ghost room: { 16 * at + 16 ≤ length (T.dwords records.now) },
    pub ghost limit: { at < 16384 },
}

impl<'a, T: Element> Record<'a, T> {
    // Word f.
    #[tactic(auto, using(crate::proofs::RecordWords::word_is))]
    pub(crate) fn word(&self, f: usize) -> u32
        requires { f < 16 }
        ensures { result ≡ word_at (T.dwords self.now.records.now) self.now.at f }
    {
        T::word(self.records, slot_of(self.at, f))
    }

    // Word f of the record of the VFE in force there.
    #[tactic(auto, using(crate::proofs::RecordWords::vfe_word_is, crate::proofs::RecordWords::vfe_word_none))]
    pub(crate) fn vfe_word(&self, f: usize) -> u32
        requires { f < 16 }
        ensures { result ≡ vfe_word_at (T.dwords self.now.records.now) self.now.at f }
    {
        let i = slot_of(self.word(14) as usize, f);
        if i < T::held(self.records) {
            return T::word(self.records, i);
        }
        0
    }
}
