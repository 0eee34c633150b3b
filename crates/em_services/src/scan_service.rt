//! The map and the interval list of em_plain as services. They keep their commands in a list, which is
//! read again for each answer: so their moves have no bound that the trait could state.

ghost use Rattle.std.specs.Prelude.{◌≡◌, ◌++◌, ◌<◌, ◌≤◌, ◌^◌, ⊤, None, OnOk, Some};
ghost use Rattle.em_settle.specs.Add.{apply_of};
ghost use Rattle.em_space.specs.Rig.{Sound};
ghost use Rattle.em_space.specs.Seen.{seen};
ghost use Rattle.em_plain.specs.CommandList.{IsCommandList, Noted, list_blocks, list_len};
ghost use Rattle.em_plain.specs.Room.{plain_room};
ghost use Rattle.em_lines.specs.Kind.{IsOfKind};
ghost use Rattle.em_model.specs.declared.command.Command.TheVariants as variants;
ghost use Rattle.em_plain.specs.ScanMap.{IsScanMap, answered_of};
ghost use Rattle.em_services.specs.Service.{size_of};
ghost use Rattle.em_services.specs.SizeLaws as sizes;
ghost use Rattle.em_services.specs.ScanLaws as laws;
ghost use Rattle.em_services.specs.ScanService.{HoldsCommands, HoldsParts, list_counts};
ghost use Rattle.em_lines.specs.declared.text.FileKind.TheVariants as kind;

use crate::map_rule::MapRule;
use crate::service::Service;
use em_chain::Chain;
use em_frames::Device;
use em_lines::FileKind;
use em_model::Command;
use em_plain::{ScanMap, ScanStab};
use em_settle::{AddSettle, Settle};
use em_space::{EmFault, Rig};

/// Gives a map a command of its file that is no sync.
fn give_map<D: Device, F: Fn(u64, u64) -> u64 + Drop>(
    map: &mut ScanMap<F>,
    rig: &mut Rig<'_, D>,
    command: Command,
) -> Result<(), EmFault>
    requires sound { Sound (seen D.state rig.old) }
    requires is { IsScanMap (seen D.state rig.old) map.old }
    requires free { 6 ≤ (seen D.state rig.old).pool.free }
    requires few { list_len map.old.list < 2 ^ 40 }
    requires kind { IsOfKind kind.Map command }
    requires other { command ≡ variants.Sync → ⊥ }
    ensures noted { Noted (seen D.state rig.old) (seen D.state rig.new)
        map.old.list map.new.list command result }
    ensures is { OnOk result (IsScanMap (seen D.state rig.new) map.new) }
    ensures answered { answered_of map.new ≡ answered_of map.old }
    ensures settle { map.new.settle ≡ map.old.settle }
{
    match command {
        Command::Put { key, value } => map.put(rig, key, value),
        Command::Del { key } => map.del(rig, key),
        Command::Get { key } => map.get(rig, key),
        Command::Add { key, value } => map.add(rig, key, value),
        _ => Ok(()),
    }
}

/// Gives an interval list a command of its file.
fn give_stab<D: Device>(
    list: &mut ScanStab,
    rig: &mut Rig<'_, D>,
    command: Command,
) -> Result<(), EmFault>
    requires sound { Sound (seen D.state rig.old) }
    requires is { IsCommandList (seen D.state rig.old) list.old.list }
    requires free { 6 ≤ (seen D.state rig.old).pool.free }
    requires few { list_len list.old.list < 2 ^ 40 }
    requires kind { IsOfKind kind.Stab command }
    ensures noted { Noted (seen D.state rig.old) (seen D.state rig.new)
        list.old.list list.new.list command result }
{
    match command {
        Command::Interval { low, high } => list.interval(rig, low, high),
        Command::Stab { point } => list.stab(rig, point),
        _ => Ok(()),
    }
}

impl<F: Fn(u64, u64) -> u64 + Drop> Service for ScanMap<F> {
    ghost use Rattle.em_plain.specs.ScanMap.{MapHasFrame};

    type Rule = MapRule<F>;

    ghost KIND = { kind.Map };

    ghost combiner = { λ m. apply_of m.settle.kind };

    ghost combiner_of = { λ rule. apply_of rule.settle.kind };

    ghost IsRule = { λ rule. ⟦<AddSettle<F> as Settle>⟧.IsReady rule.settle };

    ghost Has = { λ m s before cs. HoldsParts s m before cs };

    ghost blocks = { λ m s. list_blocks s m.list };

    ghost IsService = { λ m s. IsScanMap s m × ⟦<AddSettle<F> as Settle>⟧.IsReady m.settle };

    ghost HasItsFrames = { λ m s. MapHasFrame s m };

    ghost counts = { λ m. list_counts m.list };

    ghost most = { λ v. 2 ^ 40 };

    ghost frames = { 1 };

    ghost areas = { λ m. 0 };

    ghost size = { λ m shape cs. size_of kind.Map cs };

    ghost size_by = { λ rule shape cs. size_of kind.Map cs };

    ghost allowance = { None };

    ghost room = { Some plain_room };

    ghost no_queue = { laws.map_no_queue };

    ghost few_frames = { laws.one_frame };

    ghost few_areas = { λ m. sizes.no_area };

    ghost size_most = { λ m shape cs. sizes.size_most kind.Map cs };

    ghost size_rises = { λ m shape cs more. sizes.size_rises kind.Map cs more };

    ghost answers_few = { λ m s before cs h. sizes.map_answers_few (apply_of m.settle.kind) before cs };

    ghost synced_few = { λ m s before cs h. sizes.map_answers_few (apply_of m.settle.kind) before cs };

    ghost frames_of = { λ m s h. h.0.list.writer.frame };

    ghost n_is = { laws.map_n_is };

    ghost syncs_few = { laws.map_syncs_few };

    ghost holds = { λ m s h told. laws.holds m.list s h.0.list told };

    ghost stays = { λ m held s t h touches apart out.
        let st = laws.map_stays m held s t h.0 touches apart out in ((st.0, h.1), st.1, st.2) };

    ghost frames_stay = { λ m held s t. laws.frames_stay m.list held s t };

    ghost out = { λ m s h. laws.out m.list s h };

    ghost unstored_most = { λ m s h. laws.unstored_most m.list s h.0.list };

    ghost rising = { tt };

    ghost rising_room = { laws.rising_room };

    const KIND: FileKind = FileKind::Map;

    #[tactic(auto, using(crate::proofs::Scanning::list_made, crate::proofs::Scanning::parts_none, crate::proofs::Scanning::room_still, crate::proofs::Rules::no_area_held, crate::proofs::Rules::same_size))]
    fn new<D: Device>(rig: &mut Rig<'_, D>, rule: MapRule<F>) -> Result<ScanMap<F>, EmFault> {
        ScanMap::with(rig, rule.settle)
    }

    #[tactic(auto, using(crate::proofs::Scanning::list_takes, crate::proofs::Scanning::parts_more, crate::proofs::Scanning::take_room, crate::proofs::Scanning::take_full, em_map::proofs::Areas::goes_on))]
    fn take<D: Device>(&mut self, rig: &mut Rig<'_, D>, command: Command) -> Result<(), EmFault> {
        give_map(self, rig, command)
    }

    #[tactic(auto, using(crate::proofs::ScanSyncs::sync_is, crate::proofs::ScanSyncs::sync_has, crate::proofs::ScanSyncs::sync_items, crate::proofs::ScanSyncs::sync_room, crate::proofs::ScanSyncs::sync_full, crate::proofs::Scanning::list_owes, em_map::proofs::Areas::goes_on))]
    fn sync<D: Device>(&mut self, rig: &mut Rig<'_, D>) -> Result<Chain, EmFault> {
        ScanMap::sync(self, rig)
    }

    #[tactic(auto, using(crate::proofs::Scanning::list_gives, crate::proofs::Scanning::list_leaves, crate::proofs::Scanning::list_owes, crate::proofs::Scanning::map_room))]
    fn answers<D: Device>(self, rig: &mut Rig<'_, D>) -> Result<Chain, EmFault> {
        self.finish(rig)
    }

    #[tactic(auto, using(crate::proofs::Scanning::list_gives))]
    fn abandon<D: Device>(self, rig: &mut Rig<'_, D>) {
        ScanMap::abandon(self, rig);
    }
}

impl Service for ScanStab {
    ghost use Rattle.em_plain.specs.ScanStab.{IsScanStab, StabHasFrame};

    type Rule = ();

    ghost KIND = { kind.Stab };

    ghost combiner = { λ v x y. x };

    ghost combiner_of = { λ rule x y. x };

    ghost IsRule = { λ rule. ⊤ };

    ghost Has = { λ v s before cs. HoldsCommands s v.list (before ++ cs) };

    ghost blocks = { λ v s. list_blocks s v.list };

    ghost IsService = { λ v s. IsScanStab s v };

    ghost HasItsFrames = { λ v s. StabHasFrame s v };

    ghost counts = { λ v. list_counts v.list };

    ghost most = { λ v. 2 ^ 40 };

    ghost frames = { 1 };

    ghost areas = { λ v. 0 };

    ghost size = { λ v shape cs. size_of kind.Stab cs };

    ghost size_by = { λ rule shape cs. size_of kind.Stab cs };

    ghost allowance = { None };

    ghost room = { Some plain_room };

    ghost no_queue = { laws.stab_no_queue };

    ghost few_frames = { laws.one_frame };

    ghost few_areas = { λ v. sizes.no_area };

    ghost size_most = { λ v shape cs. sizes.size_most kind.Stab cs };

    ghost size_rises = { λ v shape cs more. sizes.size_rises kind.Stab cs more };

    ghost answers_few = { λ v s before cs h. sizes.stab_answers_few (before ++ cs) };

    ghost synced_few = { λ v s before cs h. sizes.none_few };

    ghost frames_of = { λ v s h. h.writer.frame };

    ghost n_is = { λ v s before cs h. laws.n_is v.list s (before ++ cs) h };

    ghost syncs_few = { λ v s before cs h. laws.no_syncs };

    ghost holds = { λ v s h told. laws.holds v.list s h told };

    ghost stays = { λ v held s t. laws.stab_stays v.list held s t };

    ghost frames_stay = { λ v held s t. laws.frames_stay v.list held s t };

    ghost out = { λ v s h. laws.out v.list s h };

    ghost unstored_most = { λ v s h. laws.unstored_most v.list s h };

    ghost rising = { tt };

    ghost rising_room = { laws.rising_room };

    const KIND: FileKind = FileKind::Stab;

    #[tactic(auto, using(crate::proofs::Scanning::list_made, crate::proofs::Scanning::none_held, crate::proofs::Scanning::room_still, crate::proofs::Rules::no_area_held, crate::proofs::Rules::same_size))]
    fn new<D: Device>(rig: &mut Rig<'_, D>, _rule: ()) -> Result<ScanStab, EmFault> {
        ScanStab::new(rig)
    }

    #[tactic(auto, using(crate::proofs::Scanning::list_takes, crate::proofs::Scanning::list_has_more, crate::proofs::Scanning::list_is, crate::proofs::Scanning::take_room, crate::proofs::Scanning::take_full, em_map::proofs::Areas::goes_on))]
    fn take<D: Device>(&mut self, rig: &mut Rig<'_, D>, command: Command) -> Result<(), EmFault> {
        give_stab(self, rig, command)
    }

    /// A stab file has no sync.
    fn sync<D: Device>(&mut self, _rig: &mut Rig<'_, D>) -> Result<Chain, EmFault> {
        Ok(Chain::empty())
    }

    #[tactic(auto, using(crate::proofs::Scanning::list_gives, crate::proofs::Scanning::list_leaves, crate::proofs::Scanning::list_owes, crate::proofs::Scanning::stab_items, crate::proofs::Scanning::stab_room))]
    fn answers<D: Device>(self, rig: &mut Rig<'_, D>) -> Result<Chain, EmFault> {
        self.finish(rig)
    }

    #[tactic(auto, using(crate::proofs::Scanning::list_gives))]
    fn abandon<D: Device>(self, rig: &mut Rig<'_, D>) {
        ScanStab::abandon(self, rig);
    }
}
