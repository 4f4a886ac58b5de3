// Settle.
ghost use Rattle.std.specs.Prelude.{◌≡◌};
ghost use Rattle.waiting.specs.Waiting.{Empty, Same};
ghost use Rattle.settling.specs.Propagation.{Alike, SettlesOn, Accepted};
ghost use Rattle.histories.specs.Laws.{Lawfully};
ghost use Rattle.histories.specs.Moves.{settle as settles};
ghost use Rattle.sheet.specs.Memory.{state_of, SettleLeaves};
ghost use Rattle.sheet.specs.Sheets.{settled_or};

use crate::sheet::Sheet;
use banks::bank::Bank;
use settling::outcome::Outcome;
use settling::propagate::propagate;
use settling::refusal::SettleError;
use waiting::list::WaitingList;

impl<'r, 's> Sheet<'r, 's> {
    // Settles the sheet by a rule bank, with a list for the rules that wait, which is empty afterwards.
    pub fn settle<B: Bank, L: WaitingList>(
        &mut self,
        bank: &B,
        list: &mut L,
    ) -> Result<Outcome, SettleError>
        ensures lawful { Lawfully (settles (B.wide bank.now) (B.rules bank.now) (L.room list.old)) (settled_or result) (state_of self.old) (state_of self.new) }
        ensures leaves { SettleLeaves result self.old self.new (L.waits list.old) (L.waits list.new) }
        ensures room { L.room list.new ≡ L.room list.old }
        ensures alike { Accepted (Alike (B.rules bank.now) (state_of self.old).rows (state_of self.new).rows) result }
        ensures largest { Accepted (SettlesOn (B.rules bank.now) (state_of self.old).rows (state_of self.new).rows) result }
    {
        propagate(&mut self.trail, bank, list)
    }
}
