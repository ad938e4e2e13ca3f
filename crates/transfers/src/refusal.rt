//! The test of a result: the refusals 6 to 10.
ghost use Rattle.std.specs.Prelude.{◌≡◌};
ghost use Rattle.common.specs.Told.{refusal_number};
ghost use Rattle.transfers.specs.Results.{result_with, mark_against, result_refusal};

use crate::data::CHECK_STORE;
use crate::verdict::TapeResult;
use common::refusals::Refusal;
use operations::answers::Listing;
use operations::operation::Operation;
use operations::store::Store;
use status::drives::Drive;

impl TapeResult<'_> {
    // Whether the mark flag is against its rule.
    #[tactic(auto, unfolding(crate::specs::Results::mark_against))]
    fn mark_against(&self, operation: Operation) -> bool
        ensures { result ≡ mark_against operation self.now.code self.now.mark }
    {
        let good = self.code == 0;
        (self.mark & !(operation.takes_mark() & good)) | (operation.is_search() & good & !self.mark)
    }

    /// Refused for a check store of another length, a code that is not listed, flags against their rule, or an image or
    /// marks that are not those expected.
    #[tactic(auto, unfolding(crate::specs::Results::result_refusal, common::specs::Pick::pick))]
    pub fn check_result(
        &self,
        drive: Drive,
        operation: Operation,
        store: Store,
        check: usize,
    ) -> Result<(), Refusal>
        ensures { refusal_number result
            ≡ result_refusal drive operation store (result_with self.now) check }
    {
        if check != CHECK_STORE {
            return Err(Refusal::CheckStoreLength);
        }
        if operation.listing(self.code) == Listing::Never {
            return Err(Refusal::CodeNotListed);
        }
        if self.mark_against(operation) | (4 <= self.late) {
            return Err(Refusal::FlagsAgainstRule);
        }
        self.check_image(self.expected_of(operation, store, drive.density))
    }
}
