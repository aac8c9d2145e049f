//! The calls of a soak, one after the other. No line of a turn is printed here.
ghost use Rattle.std.specs.Prelude.{◌≡◌, ◌≤◌, ◌++◌, ◌∷◌, ℕ, [], All, Contains, List, Some, IfOk, IfSome};
ghost use Rattle.std.specs.Prelude.{IsTrue, IsFalse, None, flat_map, length, map, string_bytes};
ghost use Rattle.fwu_journal.specs.Shown.{HasRoomFor, turns};
ghost use Rattle.fwu_model.specs.Call.{Call as Calls};
ghost use Rattle.fwu_model.specs.Call as call;
ghost use Rattle.gen_core.specs.Calls.{file_name, round_calls, round_package, shown as soak_shown};
ghost use Rattle.gen_core.specs.Generated.{fit_sizes};
ghost use Rattle.gen_core.specs.Rounds.{rounds_from};
ghost use Rattle.gen_core.specs.Setup.{soak_layout};
ghost use Rattle.host_io.specs.Contents.{Directory};
ghost use Rattle.script_text.specs.Armable.{IsArmable};
ghost use Rattle.script_text.specs.Shown.{HasBuffer, shown};
ghost use Rattle.script_turns.specs.Powered.{TurnMoment, device, has_power, moment_of, shown_on};
ghost use Rattle.script_runs.specs.Ending.{is_beyond_model};
ghost use Rattle.flash_commands.specs.Soaking.{AgreeAt, GoesHere, HasPackages, StandsHere, only_file_of};

use crate::one_file::OneFile;
use base_core::NoMemory;
use flash_core::Flash;
use gen_core::{Lcg, Round, SoakCall, file_name, package, round_calls, soak_rows};
use script_runs::{End, GOES_ON, Run, STARVED, do_call};
use script_text::Call;
use std::alloc::Global;
use verify_core::AnyManifest;

/// A call of a soak as one of a script.
fn call_of(alloc: Global, call: SoakCall) -> Result<Call, NoMemory>
    ensures shown { IfOk result (λ c. shown c ≡ soak_shown call) }
    ensures buffer { IfOk result (λ c. HasBuffer c) }
{
    match call {
        SoakCall::Boot => Ok(Call::Boot),
        SoakCall::Cut(cut) => Ok(Call::Cut { n: cut.n, k: cut.k }),
        SoakCall::Send { number, acceptance } => Ok(Call::Send {
            name: file_name(alloc, number)?,
            request: acceptance,
        }),
        SoakCall::Accept { guid } => Ok(Call::Accept { guid }),
        SoakCall::Previous => Ok(Call::Previous),
    }
}

/// Does the calls of a round in their order, up to one that ends the soak.
fn do_calls<D: Flash>(
    alloc: Global,
    run: &mut Run<D>,
    calls: &[SoakCall],
    files: &mut OneFile,
) -> End
    requires powered { D.on (device run.old.powered) ≡ has_power run.old.powered }
    requires armable { All (λ c. IsArmable (soak_shown c)) calls.now }
    requires turns_fit { HasRoomFor run.old.journal (length calls.now) }
    ensures stands { (all : Directory) (done : List Calls) (old : TurnMoment) → GoesHere all done old run.old
        → ((name : List ℕ) (request : ℕ) → Contains (map soak_shown calls.now) (call.Send name request)
        → AgreeAt (only_file_of (string_bytes files.old.name) files.old.bytes.items) all name) → old.on ≡ None
        → StandsHere all (done ++ map soak_shown calls.now) old run.new result }
    ensures note { IsFalse (is_beyond_model result.note) }
    ensures powered { result.status ≡ 0 → D.on (device run.new.powered) ≡ has_power run.new.powered }
    ensures size { D.blocks (device run.new.powered) ≡ D.blocks (device run.old.powered) }
{
    for index in 0..calls.len() {
        let Ok(call) = call_of(alloc, calls[index]) else {
            return STARVED;
        };
        let end = do_call(alloc, run, call, files, &AnyManifest);
        if end.status != 0 {
            return end;
        }
    }
    GOES_ON
}

/// The package of a round, under its name.
fn round_file(alloc: Global, round: &Round) -> Result<OneFile, NoMemory>
    requires fit { IsTrue (fit_sizes soak_layout.rows round.now.sizes) }
    requires version { round.now.security ≤ 223 }
    ensures name { IfOk result (λ f. string_bytes f.name ≡ file_name round.now.number) }
    ensures bytes { IfOk result (λ f. f.bytes.items ≡ round_package round.now) }
{
    let bytes = package(
        alloc,
        &soak_rows(),
        &round.sizes,
        round.number,
        round.security,
    )?;
    Ok(OneFile {
        name: file_name(alloc, round.number)?,
        bytes,
    })
}

/// Makes the package, the calls and the room of a round, and does its calls.
fn do_round<D: Flash>(alloc: Global, run: &mut Run<D>, round: &Round) -> End
    requires powered { D.on (device run.old.powered) ≡ has_power run.old.powered }
    requires fit { IsTrue (fit_sizes soak_layout.rows round.now.sizes) }
    requires version { round.now.security ≤ 223 }
    requires armable { IfSome round.now.cut (λ cut. IsArmable (call.Cut cut.n cut.k)) }
    ensures stands { (all : Directory) (done : List Calls) (old : TurnMoment) → GoesHere all done old run.old
        → all (file_name round.now.number) ≡ Some (round_package round.now) → old.on ≡ None
        → StandsHere all (done ++ round_calls soak_layout.rows round.now) old run.new result }
    ensures note { IsFalse (is_beyond_model result.note) }
    ensures powered { result.status ≡ 0 → D.on (device run.new.powered) ≡ has_power run.new.powered }
    ensures size { D.blocks (device run.new.powered) ≡ D.blocks (device run.old.powered) }
{
    let Ok(mut file) = round_file(alloc, round) else {
        return STARVED;
    };
    let Ok(calls) = round_calls(alloc, &soak_rows(), round) else {
        return STARVED;
    };
    if run.journal.make_room(calls.len()).is_err() {
        return STARVED;
    }
    do_calls(alloc, run, calls.as_slice(), &mut file)
}

/// Does so many rounds, each drawn from the register as it comes.
fn do_rounds<D: Flash>(alloc: Global, run: &mut Run<D>, register: &mut Lcg, rounds: u32) -> End
    requires powered { D.on (device run.old.powered) ≡ has_power run.old.powered }
    ensures stands { (all : Directory) (done : List Calls) (old : TurnMoment) → GoesHere all done old run.old
        → HasPackages all register.old rounds → old.on ≡ None → StandsHere all
        (done ++ flat_map (round_calls soak_layout.rows) (rounds_from register.old 1 rounds)) old run.new result }
    ensures note { IsFalse (is_beyond_model result.note) }
    ensures powered { result.status ≡ 0 → D.on (device run.new.powered) ≡ has_power run.new.powered }
    ensures size { D.blocks (device run.new.powered) ≡ D.blocks (device run.old.powered) }
{
    for index in 0..rounds {
        let round = Round::draw(register, index + 1);
        let end = do_round(alloc, run, &round);
        if end.status != 0 {
            return end;
        }
    }
    GOES_ON
}

/// Boots, and does so many rounds. No bank was started on the flash, and there is room for the first turn.
pub fn do_soak<D: Flash>(
    alloc: Global,
    run: &mut Run<D>,
    first: &mut OneFile,
    register: &mut Lcg,
    rounds: u32,
) -> End
    requires powered { D.on (device run.old.powered) ≡ has_power run.old.powered }
    requires not_booted { shown_on run.old.powered ≡ None }
    requires no_turns { turns run.old.journal ≡ [] }
    requires turn_fits { HasRoomFor run.old.journal 1 }
    ensures stands { (all : Directory) → HasPackages all register.old rounds → StandsHere all
        (call.Boot ∷ flat_map (round_calls soak_layout.rows) (rounds_from register.old 1 rounds))
        (moment_of run.old.powered) run.new result }
    ensures note { IsFalse (is_beyond_model result.note) }
    ensures size { D.blocks (device run.new.powered) ≡ D.blocks (device run.old.powered) }
{
    let end = do_call(alloc, run, Call::Boot, first, &AnyManifest);
    if end.status != 0 {
        return end;
    }
    do_rounds(alloc, run, register, rounds)
}
