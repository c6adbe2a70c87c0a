ghost use Rattle.std.specs.Prelude.{◌≡◌, ℕ, ◌+◌, ◌-◌, ◌*◌, ◌/◌, ◌%◌, ◌^◌, ◌<◌, ◌≤◌, [], ◌++◌, length, replicate, take, drop, slice_index, if◌then◌else◌, IfOk, vec_len, vec_capacity};
ghost use Rattle.std.specs.Int.{w64, to_le_bytes};
ghost use Rattle.mw_uart.specs.UartData.{start_uart, period_of};
ghost use Rattle.mw_uart.specs.UartAt.{arrivals, arrived_by, uart_at, sent_by, next_due};
ghost use Rattle.mw_uart.specs.Inside.{IsQueue, with_received};
ghost use Rattle.mw_uart.specs.Registers.{status_of, slot_of, loaded, after_load, with_tx, with_number, after_store, line_of};

use crate::script::Script;
use byteorder::{ByteOrder, LittleEndian};
use circular_buffer::HeapCircularBuffer;
use std::alloc::{AllocError as NoMemory, Global};
use std::marker::Model;

/// How many bytes each queue has place for.
const PLACES: usize = 16;

/// The UART. Clauses see its data and how many bytes of output it has memory for.
#[derive(Drop)]
pub struct Uart {
    /// The cycle that the UART stands at, counted from 0.
    cycle: u64,
    /// The bytes that arrive, each behind its cycle.
    script: Script,
    /// How many bytes of the script have arrived.
    next: usize,
    /// The bytes that were received and are not read yet, the oldest first.
    received: HeapCircularBuffer<u8>,
    /// The bytes that wait to be sent, the oldest first.
    sending: HeapCircularBuffer<u8>,
    /// The cycle at which the first byte that waits is sent, or 0 where none waits.
    due: u64,
    /// CLOCK_DIV.
    div: u16,
    /// IRQ_EN: 1 for RX, 2 for TX.
    enable: u8,
    /// All bytes sent.
    output: Vec<u8>,
    /// How many bytes of output there is memory for.
    room: u64,
}

impl Model for Uart {
    ghost use Rattle.std.specs.Prelude.{◌≤◌, ◌<◌, length, drop, vec_capacity};
    ghost use Rattle.mw_uart.specs.UartData.{Roomy};
    ghost use Rattle.mw_uart.specs.Inside.{IsQueue, IsTimed};

    ghost Value = { Roomy };

    ghost view = { λ u. record { uart = record { cycle = u.cycle; script = drop u.next u.script; received = u.received.items; sending = u.sending.items; due = u.due; div = u.div; enable = u.enable; output = u.output.items }; room = u.room } };

    ghost invariant = { λ u. (u.next ≤ length u.script) × IsQueue u.received × IsQueue u.sending × (u.enable < 4) × (u.room ≤ vec_capacity u.output) × IsTimed (length u.output.items) (length u.sending.items) u.due u.cycle u.room };
}

/// How many of `waiting` bytes are sent by a cycle, the first of them at `due` and one more each
/// `period`.
#[tactic(auto, unfolding(crate::specs::UartAt::sent_by))]
fn sent_by(waiting: usize, due: u64, period: u64, cycle: u64) -> usize
    requires some { 1 ≤ period }
    requires few { waiting ≤ 16 }
    ensures count { result ≡ sent_by waiting due period cycle }
    ensures most { result ≤ waiting }
{
    if waiting == 0 || cycle < due {
        return 0;
    }
    let more = (cycle - due) / period;
    if more < waiting as u64 {
        1 + more as usize
    } else {
        waiting
    }
}

/// The cycle at which the byte is sent that waits behind `sent` of the waiting bytes once these are
/// sent, or 0 where none does.
#[tactic(auto, unfolding(crate::specs::UartAt::next_due))]
fn next_due(waiting: usize, due: u64, period: u64, sent: usize) -> u64
    requires few { sent ≤ 16 }
    requires fits { due + 16 * period < 2 ^ 64 }
    ensures { result ≡ next_due waiting due period sent }
{
    if sent == waiting {
        0
    } else {
        due + sent as u64 * period
    }
}

/// Moves the first `count` bytes that wait to the output, which has room for them.
fn transmit(sending: &mut HeapCircularBuffer<u8>, output: &mut Vec<u8>, count: usize)
    requires few { count ≤ 16 }
    requires there { count ≤ length sending.old.items }
    requires room { vec_len output.old + count ≤ vec_capacity output.old }
    ensures sending { sending.new ≡ record sending.old { items = drop count sending.old.items } }
    ensures output { output.new.items ≡ output.old.items ++ take count sending.old.items }
    ensures capacity { vec_capacity output.old ≤ vec_capacity output.new }
{
    if count == 0 {
        return;
    }
    let mut bytes = [0; PLACES];
    sending.read_into(&mut bytes[..count]);
    let Ok(()) = output.extend_from_slice(&bytes[..count]) else {
        unreachable!()
    };
}

/// Puts a byte into the receive queue, or drops it where that is full.
fn receive(received: &mut HeapCircularBuffer<u8>, byte: u8)
    requires { IsQueue received.old }
    ensures items { received.new.items ≡ with_received received.old.items byte }
    ensures queue { IsQueue received.new }
{
    if !received.is_full() {
        let _ = received.push_back(byte);
    }
}

/// Receives those of the bytes still to arrive whose cycle has come, and tells how many they are.
fn arrive(pending: &[(u64, u8)], cycle: u64, received: &mut HeapCircularBuffer<u8>) -> usize
    requires { IsQueue received.old }
    ensures count { result ≡ arrived_by cycle pending.now }
    ensures within { result ≤ length pending.now }
    ensures items { received.new.items ≡ take 16 (received.old.items ++ arrivals cycle pending.now) }
    ensures queue { IsQueue received.new }
{
    for (count, pair) in pending.iter().enumerate() {
        if pair.0 > cycle {
            return count;
        }
        receive(received, pair.1);
    }
    pending.len()
}

/// How many cycles a byte takes from when it is first to when it is sent, by CLOCK_DIV.
fn period_of(div: u16) -> u64
    ensures { result ≡ period_of div }
{
    160 * (div as u64 + 1)
}

/// A bit of STATUS, where a fact holds.
fn flag(is: bool, bit: u64) -> u64
    ensures value { result ≡ (if is then bit else 0) }
    ensures bound { result ≤ bit }
{
    if is { bit } else { 0 }
}

/// The bytes of a slot from `at` on, as many as the width says, and zeros behind them.
fn covered(slot: u64, at: usize, width: usize) -> [u8; 8]
    requires { at + width ≤ 8 }
    ensures { result ≡ take width (drop at (to_le_bytes w64 slot)) ++ replicate (8 - width) 0 }
{
    let all = slot.to_le_bytes();
    let mut bytes = [0; 8];
    bytes[..width].copy_from_slice(&all[at..at + width]);
    bytes
}

impl Uart {
    /// The UART at cycle 0, with a script of which no byte has arrived, and with memory for `room` bytes of
    /// output. The only error is want of memory.
    pub fn new(alloc: Global, script: Script, room: u64) -> Result<Uart, NoMemory>
        requires { room ≤ 2 ^ 32 }
        ensures { IfOk result (λ u. u ≡ record { uart = start_uart script; room = room }) }
    {
        let received = HeapCircularBuffer::with_capacity(alloc, PLACES)?;
        let sending = HeapCircularBuffer::with_capacity(alloc, PLACES)?;
        let output = Vec::with_capacity(alloc, room as usize)?;
        Ok(Uart {
            cycle: 0,
            script,
            next: 0,
            received,
            sending,
            due: 0,
            div: 0,
            enable: 0,
            output,
            room,
        })
    }

    /// Brings the UART to a cycle that isn't before its own: each byte is sent at its cycle, and each byte of the
    /// script arrives at its cycle, or is lost where 16 wait to be read. It takes no memory.
    #[tactic(auto, unfolding(crate::specs::UartAt::uart_at))]
    pub fn advance(&mut self, cycle: u64)
        requires later { self.old.uart.cycle ≤ cycle }
        requires room { cycle / 160 ≤ self.old.room }
        ensures { self.new ≡ record self.old { uart = uart_at self.old.uart cycle } }
    {
        let pending = &self.script.as_slice()[self.next..];
        self.next += arrive(pending, cycle, &mut self.received);
        let waiting = self.sending.len();
        let period = period_of(self.div);
        let count = sent_by(waiting, self.due, period, cycle);
        transmit(&mut self.sending, &mut self.output, count);
        self.due = next_due(waiting, self.due, period, count);
        self.cycle = cycle;
    }

    /// STATUS: 1 where the receive queue is empty, 2 where the send queue is, 4 where the receive queue is
    /// full, 8 where the send queue is.
    fn status_of(&self) -> u64
        ensures { result ≡ status_of self.now.uart }
    {
        flag(self.received.is_empty(), 1)
            + flag(self.sending.is_empty(), 2)
            + flag(self.received.is_full(), 4)
            + flag(self.sending.is_full(), 8)
    }

    /// The oldest received byte, or 0 where there is none.
    fn oldest(&self) -> u64
        ensures { result ≡ slice_index self.now.uart.received 0 }
    {
        match self.received.front() {
            Some(byte) => *byte as u64,
            None => 0,
        }
    }

    /// What the slot of this number reads.
    fn slot_of(&self, slot: u32) -> u64
        ensures { result ≡ slot_of self.now.uart slot }
    {
        if slot == 1 {
            self.oldest()
        } else if slot == 2 {
            self.status_of()
        } else if slot == 3 {
            self.div as u64
        } else if slot == 4 {
            self.enable as u64
        } else {
            0
        }
    }

    /// Loads `width` bytes of a slot, and zeros behind them. It takes the oldest received byte out where
    /// it covers the first byte of RX.
    #[tactic(auto, unfolding(crate::specs::Registers::loaded, crate::specs::Registers::after_load))]
    pub fn load(&mut self, offset: u32, width: u8) -> [u8; 8]
        requires some { 1 ≤ width }
        requires one_slot { offset % 8 + width ≤ 8 }
        ensures value { result ≡ loaded self.old.uart offset width ++ replicate (8 - width) 0 }
        ensures after { self.new ≡ record self.old { uart = after_load self.old.uart offset } }
    {
        let bytes = covered(
            self.slot_of(offset / 8),
            (offset % 8) as usize,
            width as usize,
        );
        if offset == 8 {
            let _ = self.received.pop_front();
        }
        bytes
    }

    /// Puts a byte into the send queue, or drops it where that is full.
    #[tactic(auto, unfolding(crate::specs::Registers::with_tx))]
    fn send(&mut self, byte: u8)
        ensures { self.new ≡ record self.old { uart = with_tx self.old.uart byte } }
    {
        if self.sending.is_full() {
            return;
        }
        if self.sending.is_empty() {
            self.due = self.cycle + period_of(self.div);
        }
        let _ = self.sending.push_back(byte);
    }

    /// Stores a number to the slot whose first byte is at this offset, if one is.
    #[tactic(auto, unfolding(crate::specs::Registers::with_number))]
    fn put(&mut self, offset: u32, number: u64)
        ensures { self.new ≡ record self.old { uart = with_number self.old.uart offset number } }
    {
        if offset == 0 {
            self.send((number % 256) as u8);
        } else if offset == 0x18 {
            self.div = (number % 65536) as u16;
        } else if offset == 0x20 {
            self.enable = (number % 4) as u8;
        }
    }

    /// Stores bytes to a slot, which are a little-endian number.
    #[tactic(auto, unfolding(crate::specs::Registers::after_store))]
    pub fn store(&mut self, offset: u32, bytes: &[u8])
        requires some { 1 ≤ length bytes.now }
        requires one_slot { offset % 8 + length bytes.now ≤ 8 }
        ensures { self.new ≡ record self.old { uart = after_store self.old.uart offset bytes.now } }
    {
        self.put(offset, LittleEndian::read_uint(bytes, bytes.len()));
    }

    /// All bytes sent.
    pub fn output(&self) -> &[u8]
        ensures { result.now ≡ self.now.uart.output }
    {
        self.output.as_slice()
    }

    /// The cycle that the UART stands at.
    pub fn cycle(&self) -> u64
        ensures { result ≡ self.now.uart.cycle }
    {
        self.cycle
    }

    /// Whether the interrupt line is on: for RX, where enabled, while there are received bytes; for TX,
    /// where enabled, while none is to be sent.
    #[tactic(auto, unfolding(crate::specs::Registers::line_of))]
    pub fn line(&self) -> bool
        ensures { result ≡ line_of self.now.uart }
    {
        (self.enable % 2 == 1 && !self.received.is_empty())
            || (self.enable / 2 == 1 && self.sending.is_empty())
    }
}
