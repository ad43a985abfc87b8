// RULES.md, Validation: the outcome of a validation brought to the master at its seqno.
ghost use Rattle.std.specs.Prelude.{◌≡◌};
ghost use Rattle.blocks_cache.specs.arrays.Validation.{validate_master, validation_says, view_validation};
ghost use Rattle.blocks_cache.specs.layout.Cache.{call_on, unlent_outcome};
ghost use Rattle.cache_rules.specs.Calls.{store_validation, unlent};
ghost use Rattle.cache_rules.specs.Effects.{result_handle, result_status, result_weight, validated_kind};

use crate::cache::Cache;
use block_records::block_id::BlockId;
use block_records::entry::{BlockCacheEntryData, CandidateStatus};
use block_records::questions::{Refusal, id_fits};
use blocks_group::block::Block;

// An Option would be no plainer: Skipped is an outcome with a name of its own, and it sets a status as Complete does.
#[derive(Clone, Copy, Debug, PartialEq, Eq)]
pub enum ValidationStatus {
    Complete { signatures: u64, total_weight: u64 },
    Skipped,
}

// An Option would be no plainer: NoChange is an answer with a name of its own, which callers read, and not the lack of one.
#[derive(Clone, Copy, Debug, PartialEq, Eq)]
pub enum ValidationAnswer {
    Updated(CandidateStatus),
    NoChange,
}

fn result_status(status: ValidationStatus) -> CandidateStatus
    ensures { result ≡ result_status (view_validation status) }
{
    match status {
        ValidationStatus::Complete { .. } => CandidateStatus::Validated,
        ValidationStatus::Skipped => CandidateStatus::ValidationSkipped,
    }
}

fn result_handle(status: ValidationStatus) -> u64
    ensures { result ≡ result_handle (view_validation status) }
{
    match status {
        ValidationStatus::Complete { signatures, .. } => signatures,
        ValidationStatus::Skipped => 0,
    }
}

fn result_weight(status: ValidationStatus) -> u64
    ensures { result ≡ result_weight (view_validation status) }
{
    match status {
        ValidationStatus::Complete { total_weight, .. } => total_weight,
        ValidationStatus::Skipped => 0,
    }
}

// The kind with the validation's status, handle and weight; nothing where it stays: Received, Synced or of that status already.
fn validated_kind(
    status: ValidationStatus,
    data: BlockCacheEntryData,
) -> Option<BlockCacheEntryData>
    ensures { result ≡ validated_kind (view_validation status) «data» }
{
    let BlockCacheEntryData::Collated {
        status: known,
        received_after_collation,
        processed_to_anchor,
        ..
    } = data
    else {
        return None;
    };
    let new = result_status(status);
    if known == CandidateStatus::Synced || known == new {
        return None;
    }
    Some(BlockCacheEntryData::Collated {
        status: new,
        received_after_collation,
        signatures: result_handle(status),
        total_signature_weight: result_weight(status),
        processed_to_anchor,
    })
}

impl Cache {
    // The master is looked up by the id's seqno alone.
    #[tactic(auto, unfolding(crate::specs::arrays::Validation::validate_master))]
    fn validate_master(&mut self, seqno: u32, status: ValidationStatus) -> ValidationAnswer
        ensures { record { answer = result; cache = self.new } ≡ validate_master seqno (view_validation status) self.old }
    {
        let Some(block) = self.masters.at(seqno) else {
            return ValidationAnswer::NoChange;
        };
        let Some(kind) = validated_kind(status, block.entry.data) else {
            return ValidationAnswer::NoChange;
        };
        self.masters = self.masters.put(block.with_data(kind));
        ValidationAnswer::Updated(result_status(status))
    }

    // The result of a master block's validation, by its seqno.
    #[tactic(auto, using(crate::proofs::layout::AskedLaws::unsound_refused, crate::proofs::arrays::ValidationLaws::validation_refuses, crate::proofs::arrays::ValidationLaws::validation_is))]
    pub fn store_master_block_validation_result(
        &mut self,
        block_id: BlockId,
        status: ValidationStatus,
    ) -> Result<ValidationAnswer, Refusal>
        ensures { unlent_outcome self.new (validation_says result) ≡ call_on self.old (unlent (store_validation block_id (view_validation status))) }
    {
        self.check_sound()?;
        if !id_fits(block_id) {
            return Err(Refusal::SeqnoLimit);
        }
        Ok(self.validate_master(block_id.seqno, status))
    }
}
