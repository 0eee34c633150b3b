// A map, stab or dump file is given to a service command by command. At a sync the answers that are due are printed, and at
// the end of the file the others, or the pairs that are left.
ghost use Rattle.std.specs.Prelude.{◌≡◌, ◌+◌, ◌*◌, ◌++◌, ◌∷◌, ◌<◌, ◌≤◌, ◌^◌, true, [], List, length, IfErr, IfOk, IsTrue, OnOk};
ghost use Rattle.em_io.specs.Feed.{rest};
ghost use Rattle.em_model.specs.Stab.{stab_answers, stab_answer_of};
ghost use Rattle.em_model.specs.Sync.{since_sync, up_to_sync};
ghost use Rattle.em_model.specs.declared.command.Command as commands;
ghost use Rattle.em_model.specs.declared.command.Command.TheVariants as variants;
ghost use Rattle.em_space.specs.Held.{Within};
ghost use Rattle.em_space.specs.Rig.{Goes, Sound};
ghost use Rattle.em_space.specs.Seen.{seen};
ghost use Rattle.em_lines.specs.CommandLine.{good_commands};
ghost use Rattle.em_lines.specs.Kind.{IsOfKind};
ghost use Rattle.em_lines.specs.Reads.{Reads};
ghost use Rattle.em_ready.specs.Ready.{IsReady, IsUnused};
ghost use Rattle.em_lines.specs.RunSize.{commands_taken};
ghost use Rattle.em_chain.specs.Chain.{IsChain, chain_items, payload_in};
ghost use Rattle.em_chain.specs.Counts.{ceiling};
ghost use Rattle.em_answers.specs.Answer.{synced_text, text_at};
ghost use Rattle.em_answers.specs.FileDue.{output_text};
ghost use Rattle.em_answers.specs.Limits.{taken_commands};
ghost use Rattle.em_answers.specs.Print.{records_text};
ghost use Rattle.em_answers.specs.Reading.{ArePuts, FullAtSync, KeepsAllowance, KeepsRoom, KeepsRoomOver, StandsAlone, StopsReading, StopsReadingOver, SyncCause, TookCommands, moves_within, service_limits, size_after, ReadsAll};
ghost use Rattle.em_answers.specs.Serve.{Answers as AnswersAll};
ghost use Rattle.em_ends.specs.Stop.{IfStopsFull, Prints};
ghost use Rattle.em_map.specs.Areas.{KeepsAreas};
ghost use Rattle.em_services.specs.Service.{CanSync, TakesCommand, WithinAllowance, WithinRoom, records_at_sync, records_for, syncs_for};

use crate::print::{Answers, print_answers};
use em_chain::discard;
use em_ends::Stop;
use em_frames::Device;
use em_io::{Feed, Shelf, Sink};
use em_lines::{LineStop, take_line};
use em_model::Command;
use em_services::Service;
use em_space::Rig;

/// How many stabs a command is.
fn stabs_in(command: Command) -> u64
    ensures count { result ≡ length (stab_answer_of [] command) }
    ensures most { result ≤ 1 }
{
    match command {
        Command::Stab { .. } => 1,
        _ => 0,
    }
}

/// A sync of a file: the answers that are due are printed, and their list is released.
fn answer_sync<D: Device, W: Sink, S: Service>(
    rig: &mut Rig<'_, D>,
    service: &mut S,
    out: &mut W,
) -> Result<(), Stop>
    requires sound { Sound (seen D.state rig.old) }
    requires is { S.IsService service.old (seen D.state rig.old) }
    requires free { CanSync (S.areas service.old) (seen D.state rig.old).pool }
    requires few { (S.counts service.old).n < S.most service.old }
    requires kind { IsOfKind S.KIND variants.Sync }
    ensures goes { KeepsAreas (S.areas service.old) (S.areas service.new)
        (S.blocks service.old (seen D.state rig.old)) (seen D.state rig.old) (seen D.state rig.new) }
    ensures joins { S.combiner service.new ≡ S.combiner service.old }
    ensures bounds { S.most service.new ≡ S.most service.old }
    ensures sizes { S.size service.new ≡ S.size service.old }
    ensures frames { S.HasItsFrames service.new (seen D.state rig.new) }
    ensures is { OnOk result (S.IsService service.new (seen D.state rig.new)) }
    ensures has { OnOk result ((before cs : List commands.Command)
        → S.Has service.old (seen D.state rig.old) before cs
        → S.Has service.new (seen D.state rig.new) (before ++ cs ++ variants.Sync ∷ []) []) }
    ensures takes { OnOk result (TakesCommand S.allowance S.room 1
        (S.blocks service.old (seen D.state rig.old)) (S.blocks service.new (seen D.state rig.new))
        (S.counts service.old) (S.counts service.new)
        (seen D.state rig.old) (seen D.state rig.new)) }
    ensures room { WithinRoom S.room ((S.counts service.old).n + 1)
        (S.blocks service.old (seen D.state rig.old))
        (seen D.state rig.old) (seen D.state rig.new) }
    ensures moves { (before cs : List commands.Command)
        → S.Has service.old (seen D.state rig.old) before cs
        → WithinAllowance S.allowance
        (S.size service.old (seen D.state rig.old).pool.shape (before ++ cs ++ variants.Sync ∷ []))
        ((S.counts service.old).syncs + 1) (S.counts service.old).spent
        (seen D.state rig.old) (seen D.state rig.new) }
    ensures prints { IsTrue (seen D.state rig.old).device.told → (before cs : List commands.Command)
        → S.Has service.old (seen D.state rig.old) before cs
        → Prints W.took (records_text S.KIND 0 (records_at_sync (S.combiner service.old) S.KIND before cs))
        (W.state out.old) (W.state out.new) result }
    ensures later { W.faults out.old ≤ W.faults out.new }
    ensures full { IfErr result (λ stop. IfStopsFull stop (FullAtSync S.room
        (S.blocks service.old (seen D.state rig.old)) (S.counts service.old)
        (seen D.state rig.old) (seen D.state rig.new))) }
    ensures cause { IfErr result (SyncCause (W.faults out.old) (W.faults out.new)
        (seen D.state rig.old) (seen D.state rig.new)) }
{
    let records = service.sync(rig)?;
    let answers = Answers { records, stabs: 0 };
    print_answers(S::KIND, rig, &answers, out)?;
    discard(rig, answers.records)?;
    Ok(())
}

/// Gives a service the next command of its file; at a sync the answers that are due are printed.
fn give<D: Device, W: Sink, S: Service>(
    rig: &mut Rig<'_, D>,
    service: &mut S,
    command: Command,
    out: &mut W,
) -> Result<(), Stop>
    requires sound { Sound (seen D.state rig.old) }
    requires is { S.IsService service.old (seen D.state rig.old) }
    requires free { CanSync (S.areas service.old) (seen D.state rig.old).pool }
    requires few { (S.counts service.old).n < S.most service.old }
    requires kind { IsOfKind S.KIND command }
    ensures goes { KeepsAreas (S.areas service.old) (S.areas service.new)
        (S.blocks service.old (seen D.state rig.old)) (seen D.state rig.old) (seen D.state rig.new) }
    ensures joins { S.combiner service.new ≡ S.combiner service.old }
    ensures bounds { S.most service.new ≡ S.most service.old }
    ensures sizes { S.size service.new ≡ S.size service.old }
    ensures frames { S.HasItsFrames service.new (seen D.state rig.new) }
    ensures is { OnOk result (S.IsService service.new (seen D.state rig.new)) }
    ensures has { OnOk result ((given : List commands.Command)
        → S.Has service.old (seen D.state rig.old) (up_to_sync given) (since_sync given)
        → S.Has service.new (seen D.state rig.new) (up_to_sync (given ++ command ∷ []))
        (since_sync (given ++ command ∷ []))) }
    ensures takes { OnOk result (TakesCommand S.allowance S.room (syncs_for S.KIND (command ∷ []))
        (S.blocks service.old (seen D.state rig.old)) (S.blocks service.new (seen D.state rig.new))
        (S.counts service.old) (S.counts service.new)
        (seen D.state rig.old) (seen D.state rig.new)) }
    ensures room { WithinRoom S.room ((S.counts service.old).n + 1)
        (S.blocks service.old (seen D.state rig.old))
        (seen D.state rig.old) (seen D.state rig.new) }
    ensures moves { (given : List commands.Command)
        → S.Has service.old (seen D.state rig.old) (up_to_sync given) (since_sync given)
        → WithinAllowance S.allowance
        (S.size service.old (seen D.state rig.old).pool.shape (given ++ command ∷ []))
        ((S.counts service.old).syncs + syncs_for S.KIND (command ∷ [])) (S.counts service.old).spent
        (seen D.state rig.old) (seen D.state rig.new) }
    ensures prints { IsTrue (seen D.state rig.old).device.told → (given : List commands.Command)
        → S.Has service.old (seen D.state rig.old) (up_to_sync given) (since_sync given)
        → Prints W.took (text_at (S.combiner service.old) S.KIND given command) (W.state out.old) (W.state out.new) result }
    ensures later { W.faults out.old ≤ W.faults out.new }
    ensures full { IfErr result (λ stop. IfStopsFull stop (FullAtSync S.room
        (S.blocks service.old (seen D.state rig.old)) (S.counts service.old)
        (seen D.state rig.old) (seen D.state rig.new))) }
    ensures cause { IfErr result (SyncCause (W.faults out.old) (W.faults out.new)
        (seen D.state rig.old) (seen D.state rig.new)) }
{
    if let Command::Sync = command {
        return answer_sync(rig, service, out);
    }
    match service.take(rig, command) {
        Ok(()) => Ok(()),
        Err(fault) => Err(Stop::Em(fault)),
    }
}

/// Gives all commands of a file to a service, up to the first fault, on a rig on which the service is alone. It may have taken
/// puts before, which are the ghost `base`. At each sync the answers that are due are printed. Answers the number of stabs.
fn read_all<D: Device, H: Shelf, W: Sink, S: Service>(
    rig: &mut Rig<'_, D>,
    service: &mut S,
    feed: &mut Feed,
    shelf: &mut H,
    out: &mut W,
) -> Result<u64, Stop>
    ghost base: { List commands.Command }
    requires sound { Sound (seen D.state rig.old) }
    requires is { S.IsService service.old (seen D.state rig.old) }
    requires puts { ArePuts base }
    requires has { S.Has service.old (seen D.state rig.old) [] base }
    requires many { 2 ^ 40 + length base ≤ S.most service.old }
    requires alone { StandsAlone S.allowance S.room
        (S.size service.old (seen D.state rig.old).pool.shape base)
        (S.blocks service.old (seen D.state rig.old)) (S.counts service.old)
        (seen D.state rig.old) }
    requires free { CanSync (S.areas service.old) (seen D.state rig.old).pool }
    requires ready { ((H.stand shelf.old).slot feed.old.slot).ready ≡ true }
    requires place { feed.old.place ≡ 0 }
    ensures goes { KeepsAreas (S.areas service.old) (S.areas service.new)
        (S.blocks service.old (seen D.state rig.old)) (seen D.state rig.old) (seen D.state rig.new) }
    ensures joins { S.combiner service.new ≡ S.combiner service.old }
    ensures bounds { S.most service.new ≡ S.most service.old }
    ensures sizes { S.size service.new ≡ S.size service.old }
    ensures frames { S.HasItsFrames service.new (seen D.state rig.new) }
    ensures is { OnOk result (S.IsService service.new (seen D.state rig.new)) }
    ensures within { OnOk result (Within (seen D.state rig.old)
        (S.blocks service.old (seen D.state rig.old))
        (S.blocks service.new (seen D.state rig.new))) }
    ensures alone { OnOk result (TookCommands S.Service
        (S.size service.old (seen D.state rig.old).pool.shape) H.tells
        (base ++ good_commands S.KIND (rest feed.old (H.stand shelf.old))) service.new (seen D.state rig.new)) }
    ensures reads { Reads H.tells feed.old (H.stand shelf.old) feed.new (H.stand shelf.new) }
    ensures later { H.faults shelf.old ≤ H.faults shelf.new }
    ensures write_later { W.faults out.old ≤ W.faults out.new }
    ensures whole { IsTrue H.tells → OnOk result (ReadsAll S.KIND
        (rest feed.old (H.stand shelf.old)) (rest feed.new (H.stand shelf.new))) }
    ensures taken { IsTrue H.tells → OnOk result ((S.counts service.new).n
        ≤ commands_taken S.KIND (rest feed.old (H.stand shelf.old))
        ((H.stand shelf.new).slot feed.old.slot).left + length base) }
    ensures has { IsTrue H.tells → OnOk result (S.Has service.new (seen D.state rig.new)
        (up_to_sync (base ++ good_commands S.KIND (rest feed.old (H.stand shelf.old))))
        (since_sync (base ++ good_commands S.KIND (rest feed.old (H.stand shelf.old))))) }
    ensures stabs { IsTrue H.tells → IfOk result (λ n. n
        ≡ length (stab_answers (good_commands S.KIND (rest feed.old (H.stand shelf.old))))) }
    ensures synced { IsTrue H.tells → IsTrue (seen D.state rig.old).device.told
        → AnswersAll W.took
        (synced_text (S.combiner service.old) S.KIND (base ++ good_commands S.KIND (rest feed.old (H.stand shelf.old))))
        (W.state out.old) (W.state out.new) result }
    ensures stop { IfErr result (StopsReadingOver (length base) H.Shelf W.Sink
        (service_limits S.allowance S.room) S.KIND feed.old shelf.old shelf.new out.old out.new
        (seen D.state rig.old) (seen D.state rig.new)) }
    ensures moves { IsTrue H.tells → KeepsAllowance S.allowance (size_after base (S.size service.old)) S.KIND
        (rest feed.old (H.stand shelf.old)) ((H.stand shelf.new).slot feed.old.slot).left
        (seen D.state rig.old) (seen D.state rig.new) }
    ensures most { KeepsRoomOver (length base) S.room H.tells S.KIND (rest feed.old (H.stand shelf.old))
        ((H.stand shelf.new).slot feed.old.slot).left (seen D.state rig.new) }
{
    let mut number: u64 = 1;
    let mut stabs: u64 = 0;
    loop {
        let next = match take_line(S::KIND, feed, shelf, number) {
            Ok(next) => next,
            Err(LineStop::Read) => return Err(Stop::Read),
            Err(LineStop::Fault(fault)) => return Err(Stop::at_line(fault, number)),
        };
        let Some(command) = next else {
            return Ok(stabs);
        };
        give(rig, service, command, out)?;
        stabs += stabs_in(command);
        number += 1;
    }
}

/// Gives all commands of a file to a new service of type S by this rule, on a rig of which no block is or was in use. At each
/// sync the answers that are due are printed; those of the others are handed out. The service is given up.
#[tactic(auto, using(em_services::proofs::Areas::syncs_beside, em_services::proofs::Areas::answers_after_calls, crate::proofs::Listing::alone_made, em_services::proofs::Areas::service_ended, em_services::proofs::Areas::service_left))]
fn read_answers<D: Device, H: Shelf, W: Sink, S: Service>(
    rig: &mut Rig<'_, D>,
    rule: S::Rule,
    feed: &mut Feed,
    shelf: &mut H,
    out: &mut W,
) -> Result<Answers, Stop>
    requires rule { S.IsRule rule }
    requires unused { IsUnused (seen D.state rig.old) }
    requires none_moved { (seen D.state rig.old).moves ≡ 0 }
    requires free { IsReady (seen D.state rig.old).pool }
    requires ready { ((H.stand shelf.old).slot feed.old.slot).ready ≡ true }
    requires place { feed.old.place ≡ 0 }
    ensures goes { Goes [] (seen D.state rig.old) (seen D.state rig.new) }
    ensures is { IfOk result (λ a. IsChain (seen D.state rig.new) a.records) }
    ensures reads { Reads H.tells feed.old (H.stand shelf.old) feed.new (H.stand shelf.new) }
    ensures later { H.faults shelf.old ≤ H.faults shelf.new }
    ensures write_later { W.faults out.old ≤ W.faults out.new }
    ensures whole { IsTrue H.tells → OnOk result (ReadsAll S.KIND
        (rest feed.old (H.stand shelf.old)) (rest feed.new (H.stand shelf.new))) }
    ensures records { IsTrue H.tells → IsTrue (seen D.state rig.old).device.told
        → IfOk result (λ a. chain_items (seen D.state rig.new) a.records ≡ records_for (S.combiner_of rule) S.KIND
        (up_to_sync (good_commands S.KIND (rest feed.old (H.stand shelf.old))))
        (since_sync (good_commands S.KIND (rest feed.old (H.stand shelf.old))))) }
    ensures stabs { IsTrue H.tells → IfOk result (λ a. a.stabs
        ≡ length (stab_answers (good_commands S.KIND (rest feed.old (H.stand shelf.old))))) }
    ensures blocks { IsTrue H.tells → IsTrue (seen D.state rig.old).device.told
        → IfOk result (λ a. a.records.blocks ≤ ceiling
        (S.size_by rule (seen D.state rig.old).pool.shape (taken_commands S.KIND (rest feed.old (H.stand shelf.old))
        ((H.stand shelf.new).slot feed.old.slot).left)) (payload_in (seen D.state rig.old))) }
    ensures synced { IsTrue H.tells → IsTrue (seen D.state rig.old).device.told
        → AnswersAll W.took
        (synced_text (S.combiner_of rule) S.KIND (good_commands S.KIND (rest feed.old (H.stand shelf.old))))
        (W.state out.old) (W.state out.new) result }
    ensures stop { IfErr result (StopsReading H.Shelf W.Sink
        (service_limits S.allowance S.room) S.KIND feed.old shelf.old shelf.new out.old out.new
        (seen D.state rig.old) (seen D.state rig.new)) }
    ensures moves { IsTrue H.tells → KeepsAllowance S.allowance (S.size_by rule) S.KIND
        (rest feed.old (H.stand shelf.old)) ((H.stand shelf.new).slot feed.old.slot).left
        (seen D.state rig.old) (seen D.state rig.new) }
    ensures most { KeepsRoom S.room H.tells S.KIND (rest feed.old (H.stand shelf.old))
        ((H.stand shelf.new).slot feed.old.slot).left (seen D.state rig.new) }
{
    let mut service = match S::new(rig, rule) {
        Ok(service) => service,
        Err(fault) => return Err(Stop::Em(fault)),
    };
    match read_all(rig, &mut service, feed, shelf, out) {
        Ok(stabs) => match service.answers(rig) {
            Ok(records) => Ok(Answers { records, stabs }),
            Err(fault) => Err(Stop::Em(fault)),
        },
        Err(stop) => {
            service.abandon(rig);
            Err(stop)
        }
    }
}

/// Answers a file by a new service of type S that this rule makes, on a rig of which no block is or was in use: its commands are given to
/// the service, and the answers printed at each sync and at the end. The service is given up.
pub fn answer_file<D: Device, H: Shelf, W: Sink, S: Service>(
    rig: &mut Rig<'_, D>,
    rule: S::Rule,
    feed: &mut Feed,
    shelf: &mut H,
    out: &mut W,
) -> Result<(), Stop>
    requires rule { S.IsRule rule }
    requires unused { IsUnused (seen D.state rig.old) }
    requires none_moved { (seen D.state rig.old).moves ≡ 0 }
    requires free { IsReady (seen D.state rig.old).pool }
    requires ready { ((H.stand shelf.old).slot feed.old.slot).ready ≡ true }
    requires place { feed.old.place ≡ 0 }
    ensures goes { Goes [] (seen D.state rig.old) (seen D.state rig.new) }
    ensures reads { Reads H.tells feed.old (H.stand shelf.old) feed.new (H.stand shelf.new) }
    ensures later { H.faults shelf.old ≤ H.faults shelf.new }
    ensures write_later { W.faults out.old ≤ W.faults out.new }
    ensures whole { IsTrue H.tells → OnOk result (ReadsAll S.KIND
        (rest feed.old (H.stand shelf.old)) (rest feed.new (H.stand shelf.new))) }
    ensures answers { IsTrue H.tells → IsTrue (seen D.state rig.old).device.told
        → AnswersAll W.took (output_text (S.combiner_of rule) S.KIND (rest feed.old (H.stand shelf.old)))
        (W.state out.old) (W.state out.new) result }
    ensures stop { IfErr result (StopsReading H.Shelf W.Sink
        (service_limits S.allowance S.room) S.KIND feed.old shelf.old shelf.new out.old out.new
        (seen D.state rig.old) (seen D.state rig.new)) }
    ensures moves { IsTrue H.tells → KeepsAllowance (moves_within S.allowance) (S.size_by rule) S.KIND
        (rest feed.old (H.stand shelf.old)) ((H.stand shelf.new).slot feed.old.slot).left
        (seen D.state rig.old) (seen D.state rig.new) }
    ensures most { KeepsRoom S.room H.tells S.KIND (rest feed.old (H.stand shelf.old))
        ((H.stand shelf.new).slot feed.old.slot).left (seen D.state rig.new) }
{
    let answers = read_answers::<D, H, W, S>(rig, rule, feed, shelf, out)?;
    print_answers(S::KIND, rig, &answers, out)
}
