//! How a run stops at what the crates below refuse.
use crate::refusal::{Limit, MapRule, Refusal, Stop};
use pm_class::UnsampleRefusal;
use pm_io::Failed;
use pm_map::{ClassRefusal, MapRefusal};
use pm_mapfile::FileRefusal;
use pm_reach::CensusRefusal;
use std::alloc::AllocError;

impl From<AllocError> for Stop {
    ghost use Rattle.std.specs.Prelude.{◌≡◌};
    ghost use Rattle.pm_cli.specs.declared.refusal.Stop.TheVariants.{Memory};

    ghost from_gives = { λ _ stop. stop ≡ Memory };

    fn from(_: AllocError) -> Stop {
        Stop::Memory
    }
}

impl From<Failed> for Stop {
    ghost use Rattle.std.specs.Prelude.{◌≡◌};
    ghost use Rattle.pm_cli.specs.declared.refusal.Stop.TheVariants.{Write};

    ghost from_gives = { λ _ stop. stop ≡ Write };

    fn from(_: Failed) -> Stop {
        Stop::Write
    }
}

impl From<MapRefusal> for Stop {
    ghost use Rattle.std.specs.Prelude.{◌≡◌, Some};
    ghost use Rattle.pm_cli.specs.MapAnswers.{rule_of_lines};
    ghost use Rattle.pm_cli.specs.steps.Answering.{StopsBy};

    ghost from_gives = { λ why stop. StopsBy (λ refusal. rule_of_lines why ≡ Some refusal) stop };

    fn from(refusal: MapRefusal) -> Stop {
        let rule = match refusal {
            MapRefusal::Memory => return Stop::Memory,
            MapRefusal::TooMany { edges } => {
                return Stop::Refused(Refusal::Limited(Limit::Edges { edges }));
            }
            MapRefusal::NotPermutation { dart } => MapRule::Permutation { dart },
            MapRefusal::NotConnected { dart } => MapRule::Connected { dart },
            MapRefusal::Genus { euler } => MapRule::Euler { number: euler },
        };
        Stop::Refused(Refusal::Map(rule))
    }
}

impl From<FileRefusal> for Stop {
    ghost use Rattle.std.specs.Prelude.{◌≡◌, Some};
    ghost use Rattle.pm_cli.specs.steps.MapReading.{rule_of_file};
    ghost use Rattle.pm_cli.specs.steps.Answering.{StopsBy};

    ghost from_gives = { λ why stop. StopsBy (λ refusal. rule_of_file why ≡ Some refusal) stop };

    fn from(refusal: FileRefusal) -> Stop {
        match refusal {
            FileRefusal::Memory => Stop::Memory,
            FileRefusal::Text { line } => Stop::Refused(Refusal::Text { line }),
            FileRefusal::Map(refusal) => Stop::from(refusal),
        }
    }
}

impl From<ClassRefusal> for Stop {
    ghost use Rattle.std.specs.Prelude.{◌≡◌, Some};
    ghost use Rattle.pm_cli.specs.MapAnswers.{rule_of_class};
    ghost use Rattle.pm_cli.specs.steps.Answering.{StopsBy};

    ghost from_gives = { λ why stop. StopsBy (λ refusal. rule_of_class why ≡ Some refusal) stop };

    fn from(refusal: ClassRefusal) -> Stop {
        let rule = match refusal {
            ClassRefusal::Memory => return Stop::Memory,
            ClassRefusal::TooMany { edges } => {
                return Stop::Refused(Refusal::Limited(Limit::Edges { edges }));
            }
            ClassRefusal::Empty => MapRule::Empty,
            ClassRefusal::Vertex { dart } => MapRule::Vertex { dart },
            ClassRefusal::Face { dart } => MapRule::Face { dart },
            ClassRefusal::Loop { dart } => MapRule::Loop { dart },
            ClassRefusal::Double { dart } => MapRule::Double { dart },
        };
        Stop::Refused(Refusal::Map(rule))
    }
}

impl From<UnsampleRefusal> for Stop {
    ghost use Rattle.std.specs.Prelude.{◌≡◌, Some};
    ghost use Rattle.pm_cli.specs.Unsampling.{rule_of_pair};
    ghost use Rattle.pm_cli.specs.steps.Answering.{StopsBy};

    ghost from_gives = { λ why stop. StopsBy (λ refusal. rule_of_pair why ≡ Some refusal) stop };

    fn from(refusal: UnsampleRefusal) -> Stop {
        match refusal {
            UnsampleRefusal::Memory => Stop::Memory,
            UnsampleRefusal::Class(refusal) => Stop::from(refusal),
            UnsampleRefusal::List(refusal) => Stop::Refused(Refusal::Invalid(refusal)),
        }
    }
}

impl From<CensusRefusal> for Stop {
    ghost use Rattle.std.specs.Prelude.{◌≡◌};
    ghost use Rattle.pm_cli.specs.steps.Answering.{stop_of_census};

    ghost from_gives = { λ why stop. stop ≡ stop_of_census why };

    fn from(refusal: CensusRefusal) -> Stop {
        match refusal {
            CensusRefusal::Memory => Stop::Memory,
            CensusRefusal::TooManyLists => Stop::Refused(Refusal::Limited(Limit::Lists)),
        }
    }
}
