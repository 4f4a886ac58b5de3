// The bank of diagrams.
ghost use Rattle.std.specs.Prelude.{◌≡◌, false, map, length, is_some};
ghost use Rattle.rows.specs.Refusals.{Answer};
ghost use Rattle.banks.specs.Faults.{bank_says};
ghost use Rattle.diagrams.specs.Checks.{refusal, fault_says, Made};
ghost use Rattle.diagrams.specs.Diagrams.{meaning};
ghost use Rattle.diagrams.specs.Owed.{lawful_bank, Found};

use crate::diagram::{Arc, Diagram};
use crate::refusal::DiagramFault;
use crate::support::supported;
use banks::bank::Bank;
use banks::checking::check_rules;
use banks::questions::admit;
use banks::refusal::{BankError, CallError};

// A bank of diagrams, over the memory that holds them and the pools of their nodes' places and their arcs. No bank that can exist has a
// fault.
#[derive(Clone, Copy)]
pub struct DiagramBank<'a> {
    width: usize,
    places: &'a [u8],
    arcs: &'a [Arc],
    diagrams: &'a [Diagram<'a>],
    ghost sound: { is_some (refusal width places.now arcs.now diagrams.now) ≡ false },
}

impl<'a> DiagramBank<'a> {
    // Refuses a width, pools and diagrams of which no bank can be made.
    pub fn check(
        width: usize,
        places: &[u8],
        arcs: &[Arc],
        diagrams: &[Diagram],
    ) -> Result<(), BankError<DiagramFault>>
        ensures { Answer (bank_says fault_says) (refusal width places.now arcs.now diagrams.now) (Unit {0}) (λ _. Unit {0}) result }
    {
        check_rules(width, diagrams, |diagram| {
            diagram.check(width, places, arcs)
        })
    }

    // The bank of a width, pools and diagrams, or, where the check refuses, one of width 1 and no rules. A making
    // cannot refuse, by the rules of the engine; and the pools are lent one by one.
    pub fn make(
        width: usize,
        places: &'a [u8],
        arcs: &'a [Arc],
        diagrams: &'a [Diagram<'a>],
    ) -> DiagramBank<'a>
        ensures { Made width places.now arcs.now diagrams.now result.width (map (meaning result.arcs.now) result.diagrams.now) }
    {
        if Self::check(width, places, arcs, diagrams).is_ok() {
            DiagramBank {
                width,
                places,
                arcs,
                diagrams,
            }
        } else {
            DiagramBank {
                width: 1,
                places: &[],
                arcs: &[],
                diagrams: &[],
            }
        }
    }

    // The diagram of a rule number. As in the banks of the other kinds, each over its own type.
    fn find(&self, rule: usize) -> Result<Diagram<'a>, CallError>
        ensures { Found self.now.width self.now.places.now self.now.arcs.now self.now.diagrams.now rule result }
    {
        self.diagrams
            .get(rule)
            .copied()
            .ok_or(CallError::NoSuchRule)
    }
}

impl Bank for DiagramBank<'_> {
    ghost wide = { λ b. b.width };

    ghost rules = { λ b. map (meaning b.arcs.now) b.diagrams.now };

    ghost lawful = { λ b. lawful_bank b.width b.places.now b.arcs.now b.diagrams.now b.sound };

    fn width(&self) -> usize {
        self.width
    }

    fn rule_count(&self) -> usize {
        self.diagrams.len()
    }

    fn arity(&self, rule: usize) -> Result<usize, CallError> {
        let diagram = self.find(rule)?;
        Ok(diagram.rows.len())
    }

    fn row_at(&self, rule: usize, place: usize) -> Result<usize, CallError> {
        self.find(rule)?
            .rows
            .get(place)
            .copied()
            .ok_or(CallError::NoSuchPlace)
    }

    fn support(&self, rule: usize, rows: &[u64], masks: &mut [u64]) -> Result<(), CallError> {
        let diagram = self.find(rule)?;
        let arity = diagram.rows.len();
        admit(self.width, arity, rows, masks)?;
        let nodes = diagram.nodes.of(self.places);
        let arcs = diagram.arcs.of(self.arcs);
        let shown = supported(diagram.rows, nodes, arcs, rows);
        masks[..arity].copy_from_slice(&shown[..arity]);
        Ok(())
    }
}
