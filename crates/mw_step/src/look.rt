ghost use Rattle.std.specs.Prelude.{◌≡◌, false, IfSome, Some, is_some, option_map};
ghost use Rattle.mw_decode.specs.Decode.{is_prefix};
ghost use Rattle.mw_decode.specs.Decode.{IsInsn};
ghost use Rattle.mw_isa.specs.Fetch.{fetched, is_cut};
ghost use Rattle.mw_isa.specs.Raises.{words_raise};
ghost use Rattle.mw_isa.specs.Slots.{get_slot};
ghost use Rattle.mw_isa.specs.State.{seen};
ghost use Rattle.mw_isa.specs.Step.{marked};
ghost use Rattle.mw_isa.specs.Take.{IsCause, IsUnmarked};
ghost use Rattle.mw_isa.specs.Words.{insn_of};
ghost use Rattle.mw_step.specs.Prepared.{IsPrepared};

use crate::fetch::{fetch_at, fetched_at};
use crate::judge::end_raises;
use crate::packet::{set_coming, set_failing, set_raising};
use crate::place::placed_of;
use crate::prepared::Prepared;
use mw_decode::{decode, decode_into};
use mw_exec::exec_into;
use mw_isa::{
    Fetched, Kind, Raised, Regs, State, cut_raised, decoded_raises, fault_raises, is_cut, marked,
    operands,
};

/// The interrupt that words raise which aren't cut off.
fn words_raise(words: &Fetched, regs: &Regs) -> Option<Raised>
    requires { is_some words.now.suffix ≡ is_prefix words.now.word }
    ensures value { result ≡ words_raise words.now (get_slot regs.now) }
    ensures cause { IfSome result (λ raised. IsUnmarked raised.cause) }
{
    decoded_raises(&decode(words.word, words.suffix), regs)
}

/// An interrupt with the bit that tells of a prefix, if there is one.
fn marked_if(words: &Fetched, raised: Option<Raised>) -> Option<Raised>
    requires { IfSome raised (λ it. IsUnmarked it.cause) }
    ensures value { result ≡ option_map (marked (Some words.now)) raised }
    ensures cause { IfSome result (λ it. IsCause it.cause) }
{
    match raised {
        None => None,
        Some(raised) => Some(marked(words, raised)),
    }
}

/// What is known of the instruction that is in `prepared` with its words, written over the rest of it.
fn prepare_insn(state: &State, prepared: &mut Prepared)
    requires words { fetched (seen state.now) ≡ Some prepared.old.words }
    requires is { insn_of prepared.old.words ≡ Some prepared.old.insn }
    requires insn { IsInsn prepared.old.insn }
    ensures { IsPrepared prepared.new (seen state.now) }
{
    let found = operands(&prepared.insn, &state.regs, state.regs.msr);
    exec_into(
        &prepared.insn,
        &found,
        state.regs.cia,
        &mut prepared.outcome,
    );
    placed_of(
        &prepared.outcome,
        &state.ram,
        &state.regs,
        &mut prepared.placed,
    );
    prepared.raised = marked_if(
        &prepared.words,
        end_raises(&prepared.outcome, &prepared.placed, state.regs.msr),
    );
    set_coming(
        state.regs.cia,
        &prepared.words,
        &prepared.outcome,
        &prepared.placed,
        &prepared.raised,
        state.regs.reserve,
        &mut prepared.packet,
    );
}

/// What is known of the instruction whose words are in `prepared`, written over the rest of it.
fn prepare_words(state: &State, prepared: &mut Prepared)
    requires words { fetched (seen state.now) ≡ Some prepared.old.words }
    requires whole { is_cut prepared.old.words ≡ false → is_some prepared.old.words.suffix ≡ is_prefix prepared.old.words.word }
    ensures { IsPrepared prepared.new (seen state.now) }
{
    let words = prepared.words;
    if is_cut(&words) {
        prepared.raised = Some(marked(&words, cut_raised()));
        set_raising(
            state.regs.cia,
            &words,
            &prepared.raised,
            &mut prepared.packet,
        );
    } else if decode_into(words.word, words.suffix, &mut prepared.insn) {
        prepare_insn(state, prepared);
    } else {
        prepared.raised = marked_if(&words, words_raise(&words, &state.regs));
        set_raising(
            state.regs.cia,
            &words,
            &prepared.raised,
            &mut prepared.packet,
        );
    }
}

/// What is known of the next instruction before anything changes: the interrupt that it raises, if it does, and if it
/// doesn't, its words, what it is, what it comes to, and where its access stands; and in any case what the update
/// discipline sees of it; written over `prepared`, whatever that was (Books I to III). It can't fail and takes no memory.
pub fn prepare(state: &State, prepared: &mut Prepared)
    ensures { IsPrepared prepared.new (seen state.now) }
{
    match fetch_at(&state.ram, &state.regs) {
        Err(fault) => {
            prepared.raised = Some(fault_raises(fault, Kind::Fetch, state.regs.cia));
            set_failing(state.regs.cia, &prepared.raised, &mut prepared.packet);
        }
        Ok(real) => {
            prepared.words = fetched_at(&state.ram, real);
            prepare_words(state, prepared);
        }
    }
}
