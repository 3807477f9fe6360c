// The answers as C has them: a refusal holds its number and zero in every other field, and refused is 0 where the call is accepted.

ghost use Rattle.std.specs.Prelude.{◌≡◌};
ghost use Rattle.calls.specs.Answers.{test_of, counted_of, paths_of};
ghost use Rattle.deciding.specs.Outcome.{values_of};
ghost use Rattle.striking.specs.Outcome.{numbers_of};
ghost use Rattle.cadwezin_c.specs.Answers.{verdict_in, minimised_in, test_in, count_in, paths_in};

use calls::paths::Paths;
use containment::Containment;
use questions::refusal::Refusal;
use striking::Minimised;

// The kind is 1 included, 2 not included, 3 stopped, and 0 of a refusal.
#[repr(C)]
#[derive(Clone, Copy)]
pub struct VerdictAnswer {
    pub refused: u64,
    pub kind: u64,
    pub tried: u64,
}

impl VerdictAnswer {
    // Of an accepted call.
    fn accepted(kind: u64, tried: u64) -> VerdictAnswer
        ensures { result ≡ record { refused = 0; kind = kind; tried = tried } }
    {
        VerdictAnswer {
            refused: 0,
            kind,
            tried,
        }
    }
}

impl From<Result<Containment, Refusal>> for VerdictAnswer {
    ghost from_gives = { λ answer given. verdict_in given ≡ values_of answer };

    fn from(answer: Result<Containment, Refusal>) -> VerdictAnswer {
        match answer {
            Ok(Containment::Contained(tried)) => VerdictAnswer::accepted(1, tried),
            Ok(Containment::NotContained(tried)) => VerdictAnswer::accepted(2, tried),
            Ok(Containment::Stopped(tried)) => VerdictAnswer::accepted(3, tried),
            Err(refusal) => VerdictAnswer {
                refused: refusal.number(),
                kind: 0,
                tried: 0,
            },
        }
    }
}

// How many leaves were struck, and the sum of tried over all verdicts made.
#[repr(C)]
#[derive(Clone, Copy)]
pub struct MinimiseAnswer {
    pub refused: u64,
    pub struck: u64,
    pub tried: u64,
}

impl From<Result<Minimised, Refusal>> for MinimiseAnswer {
    ghost from_gives = { λ answer given. minimised_in given ≡ numbers_of answer };

    fn from(answer: Result<Minimised, Refusal>) -> MinimiseAnswer {
        match answer {
            Ok(minimised) => MinimiseAnswer {
                refused: 0,
                struck: minimised.struck as u64,
                tried: minimised.tried,
            },
            Err(refusal) => MinimiseAnswer {
                refused: refusal.number(),
                struck: 0,
                tried: 0,
            },
        }
    }
}

// Yes is 1, no is 0.
#[repr(C)]
#[derive(Clone, Copy)]
pub struct TestAnswer {
    pub refused: u64,
    pub holds: u64,
}

impl From<Result<bool, Refusal>> for TestAnswer {
    ghost from_gives = { λ answer given. test_in given ≡ test_of answer };

    fn from(answer: Result<bool, Refusal>) -> TestAnswer {
        match answer {
            Ok(holds) => TestAnswer {
                refused: 0,
                holds: u64::from(holds),
            },
            Err(refusal) => TestAnswer {
                refused: refusal.number(),
                holds: 0,
            },
        }
    }
}

// A count: of nodes, or of the bytes that are written.
#[repr(C)]
#[derive(Clone, Copy)]
pub struct CountAnswer {
    pub refused: u64,
    pub count: u64,
}

impl From<Result<usize, Refusal>> for CountAnswer {
    ghost from_gives = { λ answer given. count_in given ≡ counted_of answer };

    fn from(answer: Result<usize, Refusal>) -> CountAnswer {
        match answer {
            Ok(count) => CountAnswer {
                refused: 0,
                count: count as u64,
            },
            Err(refusal) => CountAnswer {
                refused: refusal.number(),
                count: 0,
            },
        }
    }
}

// The paths of sixteen pattern nodes, bit i for summary node i, and how many each has. Entries past the last node are 0.
#[repr(C)]
#[derive(Clone, Copy)]
pub struct PathsAnswer {
    pub refused: u64,
    pub masks: [u64; 16],
    pub counts: [u64; 16],
}

impl From<Result<Paths, Refusal>> for PathsAnswer {
    ghost from_gives = { λ answer given. paths_in given ≡ paths_of answer };

    fn from(answer: Result<Paths, Refusal>) -> PathsAnswer {
        match answer {
            Ok(paths) => {
                let masks = paths.masks;
                let counts = paths.counts;
                PathsAnswer {
                    refused: 0,
                    masks,
                    counts,
                }
            }
            Err(refusal) => PathsAnswer {
                refused: refusal.number(),
                masks: [0; 16],
                counts: [0; 16],
            },
        }
    }
}
