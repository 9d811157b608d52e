//! The lines that let a disk fail or heal, or cut the power.
ghost use Rattle.std.specs.Prelude.{◌≡◌, ◌⊎◌, IsFalse};
ghost use Rattle.lvm_disk.specs.declared.shelf.Arrange.TheVariants as arrange;
ghost use Rattle.lvm_group_lines.specs.Ends.{EndsUnasked};
ghost use Rattle.lvm_group_lines.specs.Moments.{Aside};
ghost use Rattle.lvm_group_lines.specs.Replies.{is_unheard};
ghost use Rattle.lvm_group_lines.specs.Shelves.{ArrangeDoes, CutDoes};
ghost use Rattle.lvm_group_lines.specs.Stages.{IsBetweenStage, IsFittingStage};

use crate::below::Closed;
use crate::reply::{Refusal, Reply};
use crate::stage::{Answered, Stage};
use lvm_disk::{Arrange, Shelf};
use lvm_transfer::relight;

/// Lets a disk fail, or heal. The stage isn't given away for it, and goes on as it is.
pub fn do_arrange<S: Shelf>(stage: &mut Stage<S>, disk: u16, what: Arrange) -> Reply
    requires fits { IsFittingStage stage.old }
    requires between { IsBetweenStage S.device stage.old }
    requires what { (what ≡ arrange.Fail disk) ⊎ (what ≡ arrange.Heal disk) }
    ensures ends { EndsUnasked S.device (λ _. ArrangeDoes disk what) (Unit {0}) Aside stage.old stage.new result }
    ensures heard { IsFalse (is_unheard result) }
{
    if disk >= stage.disks() {
        return Reply::Refused(Refusal::NoDisk { disk });
    }
    if stage.holder.arrange(what) {
        Reply::Ok
    } else {
        Reply::Refused(Refusal::NoPlan)
    }
}

/// Cuts the power, and puts it on again. A session that is on ends, and its posts with it.
pub fn do_cut<S: Shelf>(stage: Stage<S>, word: u64) -> Answered<S>
    requires fits { IsFittingStage stage }
    requires between { IsBetweenStage S.device stage }
    ensures { EndsUnasked S.device (λ log. CutDoes log word) (Unit {0}) Aside stage result.stage result.reply }
{
    let mut stage = stage;
    if !stage.holder.arrange(Arrange::Cut(word)) {
        return stage.refused(Refusal::NoPlan);
    }
    let (closed, posts, bytes) = stage.close();
    let Closed {
        mut shelf,
        mut history,
    } = closed;
    history.cut();
    relight(&mut shelf);
    Stage::off(shelf, history, posts, bytes).answered(Reply::Ok)
}
