ghost use Rattle.std.specs.Prelude.{◌≡◌, ◌≤◌, ◌++◌, map, OnOk};
ghost use Rattle.std.specs.List.{flat_map, enumerate_from};
ghost use Rattle.mw_isa.specs.State.{seen};
ghost use Rattle.mw_isa.specs.Text.{line, named, gpr_words, program_words, interrupt_words, software_words, special_words, sent_word, uart_words, state_words};

use crate::words::{add_all_bytes, add_hex};
use mw_bits::Bytes;
use mw_digits::add_decimal;
use mw_isa::{Regs, State};
use mw_soc::Devices;
use std::alloc::AllocError as NoMemory;

/// Appends the line of a register: its name and its content in so many digits.
#[tactic(auto, unfolding(mw_isa::specs::Text::line))]
fn add_register(text: &mut Bytes, name: &[u8], digits: usize, content: u64) -> Result<(), NoMemory>
    requires { digits ≤ 16 }
    ensures { OnOk result (text.new ≡ text.old ++ line (named name.now digits content)) }
{
    text.add(name)?;
    add_hex(text, digits, content)?;
    text.add(b"\n")
}

/// Appends the line of a register of 64 bits.
fn add_doubleword(text: &mut Bytes, name: &[u8], content: u64) -> Result<(), NoMemory>
    ensures { OnOk result (text.new ≡ text.old ++ line (named name.now 16 content)) }
{
    add_register(text, name, 16, content)
}

/// Appends the line of a register of 32 bits.
fn add_word(text: &mut Bytes, name: &[u8], content: u32) -> Result<(), NoMemory>
    ensures { OnOk result (text.new ≡ text.old ++ line (named name.now 8 content)) }
{
    add_register(text, name, 8, u64::from(content))
}

/// Appends the line of a general purpose register.
#[tactic(auto, unfolding(mw_isa::specs::Text::line))]
fn add_gpr(text: &mut Bytes, number: u64, content: u64) -> Result<(), NoMemory>
    ensures { OnOk result (text.new ≡ text.old ++ line (gpr_words (number, content))) }
{
    text.add(b"r")?;
    add_decimal(text, number)?;
    add_hex(text, 16, content)?;
    text.add(b"\n")
}

/// Appends the lines of the general purpose registers.
fn add_gprs(text: &mut Bytes, gpr: &[u64; 32]) -> Result<(), NoMemory>
    ensures { OnOk result
        (text.new ≡ text.old ++ flat_map line (map gpr_words (enumerate_from 0 gpr.now))) }
{
    for (number, content) in gpr.iter().enumerate() {
        add_gpr(text, number as u64, *content)?;
    }
    Ok(())
}

/// Appends the lines of the special registers from `cr` to `msr`.
#[tactic(auto, unfolding(mw_isa::specs::Text::program_words))]
fn add_program(text: &mut Bytes, regs: &Regs) -> Result<(), NoMemory>
    ensures { OnOk result (text.new ≡ text.old ++ flat_map line (program_words regs.now)) }
{
    add_word(text, b"cr", regs.cr)?;
    add_doubleword(text, b"xer", regs.xer)?;
    add_doubleword(text, b"lr", regs.lr)?;
    add_doubleword(text, b"ctr", regs.ctr)?;
    add_doubleword(text, b"tar", regs.tar)?;
    add_doubleword(text, b"cia", regs.cia)?;
    add_doubleword(text, b"msr", regs.msr)
}

/// Appends the lines of the special registers from `srr0` to `pidr`.
#[tactic(auto, unfolding(mw_isa::specs::Text::interrupt_words))]
fn add_interrupt(text: &mut Bytes, regs: &Regs, devices: &Devices) -> Result<(), NoMemory>
    ensures { OnOk result (text.new ≡ text.old ++ flat_map line (interrupt_words regs.now devices.now.devices)) }
{
    add_doubleword(text, b"srr0", regs.srr0)?;
    add_doubleword(text, b"srr1", regs.srr1)?;
    add_doubleword(text, b"hsrr0", regs.hsrr0)?;
    add_doubleword(text, b"hsrr1", regs.hsrr1)?;
    add_doubleword(text, b"dar", regs.dar)?;
    add_word(text, b"dsisr", regs.dsisr)?;
    add_word(text, b"dec", devices.dec())?;
    add_word(text, b"pidr", regs.pidr)
}

/// Appends the lines of the special registers from `sprg0` to `prtbl`.
#[tactic(auto, unfolding(mw_isa::specs::Text::software_words))]
fn add_software(text: &mut Bytes, regs: &Regs) -> Result<(), NoMemory>
    ensures { OnOk result (text.new ≡ text.old ++ flat_map line (software_words regs.now)) }
{
    add_doubleword(text, b"sprg0", regs.sprg[0])?;
    add_doubleword(text, b"sprg1", regs.sprg[1])?;
    add_doubleword(text, b"sprg2", regs.sprg[2])?;
    add_doubleword(text, b"sprg3", regs.sprg[3])?;
    add_doubleword(text, b"hsprg0", regs.hsprg[0])?;
    add_doubleword(text, b"hsprg1", regs.hsprg[1])?;
    add_doubleword(text, b"prtbl", regs.prtbl)
}

/// Appends the lines of the special registers.
fn add_specials(text: &mut Bytes, regs: &Regs, devices: &Devices) -> Result<(), NoMemory>
    ensures { OnOk result (text.new ≡ text.old ++ flat_map line (special_words regs.now devices.now.devices)) }
{
    add_program(text, regs)?;
    add_interrupt(text, regs, devices)?;
    add_software(text, regs)
}

/// Appends the bytes that the UART sent, or a minus where there is none.
fn add_sent(text: &mut Bytes, sent: &[u8]) -> Result<(), NoMemory>
    ensures { OnOk result (text.new ≡ text.old ++ sent_word sent.now) }
{
    match sent {
        [] => text.add(b"-"),
        [_, ..] => add_all_bytes(text, sent),
    }
}

/// Appends the line of the UART.
#[tactic(auto, unfolding(mw_isa::specs::Text::line))]
fn add_uart(text: &mut Bytes, devices: &Devices) -> Result<(), NoMemory>
    ensures { OnOk result (text.new ≡ text.old ++ line (uart_words devices.now.devices)) }
{
    text.add(b"uart ")?;
    add_sent(text, devices.output())?;
    text.add(b"\n")
}

/// Appends the lines of the registers and of the UART.
pub fn add_state(text: &mut Bytes, state: &State) -> Result<(), NoMemory>
    ensures { OnOk result (text.new ≡ text.old ++ flat_map line (state_words (seen state.now))) }
{
    add_gprs(text, &state.regs.gpr)?;
    add_specials(text, &state.regs, &state.devices)?;
    add_uart(text, &state.devices)
}
