// RULES.md, Questions: 1 of a cache, and 2 of a seqno.
ghost use Rattle.std.specs.Prelude.{◌≡◌, cond, Err, Ok, true};
ghost use Rattle.std.specs.Result.{result_map_both};
ghost use Rattle.block_records.specs.declared.questions.Refusal.TheVariants.{SeqnoLimit, Unsound};
ghost use Rattle.block_records.specs.rules.Questions.{seqno_fits};
ghost use Rattle.blocks_cache.specs.layout.Cache.{sound_cache};

use crate::cache::Cache;
use block_records::questions::{Refusal, seqno_fits};

// A cache of which question 1 was answered with yes.
#[derive(Clone, Copy)]
pub(crate) struct SoundCache<'a> {
    pub cache: &'a Cache,
    ghost sound: { sound_cache cache.now ≡ true },
}

impl Cache {
    // Question 1.
    pub(crate) fn check_sound(&self) -> Result<(), Refusal>
        ensures { result ≡ cond (sound_cache self.now) (Ok tt) (Err Unsound) }
    {
        if !self.is_sound() {
            return Err(Refusal::Unsound);
        }
        Ok(())
    }

    // The same, and its yes stands in the type.
    pub(crate) fn sound(&self) -> Result<SoundCache<'_>, Refusal>
        ensures { result_map_both (λ s. s.cache.now) (λ n. n) result ≡ cond (sound_cache self.now) (Ok self.now) (Err Unsound) }
    {
        self.check_sound()?;
        Ok(SoundCache { cache: self })
    }
}

// Question 2 of a seqno.
pub(crate) fn check_seqno(seqno: u32) -> Result<(), Refusal>
    ensures { result ≡ cond (seqno_fits seqno) (Ok tt) (Err SeqnoLimit) }
{
    if !seqno_fits(seqno) {
        return Err(Refusal::SeqnoLimit);
    }
    Ok(())
}
