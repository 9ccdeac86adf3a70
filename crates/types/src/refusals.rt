// Document 01's table 'Turned back', and the numbers that document 02 adds: the refusals of the calls, by the names of the Rust's errors where it has one.
ghost use Rattle.std.specs.Prelude.{◌≡◌};
ghost use Rattle.types.specs.Refusals.{number_of};

// Why a call is refused. Its number is the table's.
#[derive(Clone, Copy, Debug, PartialEq, Eq)]
pub enum Refusal {
    InvalidImage = 1,
    InvalidEpoch = 2,
    InvalidPublisherCaps = 3,
    InvalidPositions = 4,
    InvalidY = 5,
    InvalidDelegationFee = 6,
    UnverifiedPublisherCaps = 7,
    PoolDataAlreadyUpToDate = 8,
    OutdatedPublisherCaps = 9,
    InvalidPublisher = 10,
    PublisherNotFound = 11,
    OutdatedPublisherAccounting = 12,
    DoesNotFit = 13,
    // Never given: an advance passes where claimable is over custody ([8] of document 02). The number stays the table's.
    ClaimableOverCustody = 14,
    UnexpectedPositionState = 15,
    PaymentAboveClaimable = 16,
    PublisherStakeAccountMismatch = 17,
    PublisherCustodyAccountRequired = 18,
    OutdatedDelegatorAccounting = 19,
    WrongSlashEventOrder = 20,
    InvalidSlashEventIndex = 21,
    SlashEventAheadOfNow = 22,
    PublisherOrRewardAuthorityNeedsToSign = 23,
    CurrentStakeAccountShouldBeUndelegated = 24,
    StakeAccountOwnerNeedsToSign = 25,
    AccountNotEnoughKeys = 26,
    NewStakeAccountShouldBeUndelegated = 27,
    // The split's two, of document 02's [1].
    InvalidWeights = 28,
    ZeroWeightSum = 29,
}

impl From<Refusal> for u64 {
    ghost from_gives = { λ refusal number. number ≡ number_of refusal };

    fn from(refusal: Refusal) -> u64 {
        refusal as u64
    }
}
