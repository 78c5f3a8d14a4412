// The refusals of the documents: each is the first question of an operation that is answered no.
ghost use Rattle.std.specs.Prelude.{◌≡◌, ◌<◌};
ghost use Rattle.refusals.specs.Refusals.{number_of};

// A refusal, by what is wrong; those of a load stand in the order in which it asks.
#[derive(Clone, Copy, PartialEq, Eq, PartialOrd, Ord)]
pub enum Refusal {
    StoreSize,
    StoreUnsound,
    AidLength,
    DomainExists,
    DomainUnknown,
    DomainOccupied,
    PackageUnknown,
    PackageImported,
    MethodUnknown,
    FileMark,
    FileLayout,
    PackageExists,
    ImportMissing,
    ClassParents,
    MethodForm,
    CodeSplit,
    BranchTarget,
    Handler,
    CodeInt,
    CallReference,
    CallPolicy,
    RunningPolicy,
    StoreFull,
    Limits,
}

impl Refusal {
    // Its number in the documents.
    pub fn number(self) -> u32
        ensures { (result ≡ number_of self) × (result < 256) }
    {
        match self {
            Refusal::StoreSize => 1,
            Refusal::StoreUnsound => 2,
            Refusal::AidLength => 3,
            Refusal::DomainExists => 4,
            Refusal::DomainUnknown => 5,
            Refusal::DomainOccupied => 6,
            Refusal::PackageUnknown => 7,
            Refusal::PackageImported => 8,
            Refusal::MethodUnknown => 9,
            Refusal::FileMark => 10,
            Refusal::FileLayout => 11,
            Refusal::PackageExists => 12,
            Refusal::ImportMissing => 13,
            Refusal::ClassParents => 14,
            Refusal::MethodForm => 15,
            Refusal::CodeSplit => 16,
            Refusal::BranchTarget => 17,
            Refusal::Handler => 24,
            Refusal::CodeInt => 26,
            Refusal::CallReference => 18,
            Refusal::CallPolicy => 19,
            Refusal::RunningPolicy => 20,
            Refusal::StoreFull => 21,
            Refusal::Limits => 30,
        }
    }
}
