ghost use Rattle.std.specs.Prelude.{◌≡◌, ◌+◌, ◌*◌, ◌^◌, ◌<◌, ◌≤◌, length, IfOk};
ghost use Rattle.mw_generator.specs.Draws.{draw, next_number, number_behind};
ghost use Rattle.mw_generator.specs.Generated.{back, drawn_word, generated, handler, handler_at, image_over, image_size, leaf, leaf_count, load, loads, program, real_page, return, setup, start, with_leaves, with_tables, with_words};

use crate::draws::Draws;
use crate::laying::{lay_doubleword, lay_word, lay_words};
use crate::word::{addi, branch_back, chosen, li, lis, mfmsr, mtspr, ori, rfid, si_of};
use mw_bits::Bytes;
use std::alloc::{AllocError as NoMemory, Global};

/// An image has so many bytes.
const SIZE: usize = 0x18_0000;

/// Where the handler of the decrementer stands (Book III, interrupt vectors).
const HANDLER: usize = 0x900;

/// Where the leaves of the radix tree stand, in order of pages, and how many there are.
const LEAVES: usize = 0x3_2000;

const PAGES: usize = 512;

/// Where the program stands, and how many instructions it has before its branch back.
const PROGRAM: usize = 0x10_0000;

const LENGTH: usize = 131_071;

/// The words of the start before its draws.
fn setup() -> [u32; 10]
    ensures { result ≡ setup }
{
    [
        li(3, 1),
        mtspr(48, 3),
        lis(3, 1),
        mtspr(720, 3),
        lis(3, 4),
        lis(4, 16),
        mtspr(26, 4),
        mfmsr(5),
        ori(5, 5, 0x8030),
        mtspr(27, 5),
    ]
}

/// A register becomes the next draw.
fn load(draws: &mut Draws, rt: u8) -> u32
    requires { rt < 32 }
    ensures word { result ≡ load rt draws.old }
    ensures number { draws.new ≡ next_number draws.old }
{
    li(rt, si_of(draws.below(65536) as u16))
}

/// Registers 8 to 15 become draws.
fn loads(draws: &mut Draws) -> [u32; 8]
    ensures words { result ≡ loads 8 8 draws.old }
    ensures number { draws.new ≡ number_behind 8 draws.old }
{
    [
        load(draws, 8),
        load(draws, 9),
        load(draws, 10),
        load(draws, 11),
        load(draws, 12),
        load(draws, 13),
        load(draws, 14),
        load(draws, 15),
    ]
}

/// The words that set the decrementer to a period and return from the interrupt.
fn return_from(period: u16) -> [u32; 3]
    requires { period < 2000 }
    ensures { result ≡ return period }
{
    [li(6, period as i16), mtspr(22, 6), rfid()]
}

/// Lays the start.
#[tactic(auto, unfolding(crate::specs::Generated::with_words))]
fn lay_start(image: &mut Bytes, draws: &mut Draws, period: u16)
    requires room { image_size ≤ length image.old }
    requires period { period < 2000 }
    ensures number { draws.new ≡ number_behind 8 draws.old }
    ensures image { image.new ≡ with_words 0 (start period draws.old) image.old }
    ensures whole { length image.new ≡ length image.old }
{
    lay_words(image, 0, &setup());
    lay_words(image, 40, &loads(draws));
    lay_words(image, 72, &return_from(period));
}

/// Lays the handler.
#[tactic(auto, unfolding(crate::specs::Generated::with_words))]
fn lay_handler(image: &mut Bytes, period: u16)
    requires room { image_size ≤ length image.old }
    requires period { period < 2000 }
    ensures image { image.new ≡ with_words handler_at (handler period) image.old }
    ensures whole { length image.new ≡ length image.old }
{
    lay_word(image, HANDLER, addi(7, 7, 1));
    lay_words(image, HANDLER + 4, &return_from(period));
}

/// Lays the tables above the leaves.
#[tactic(auto, unfolding(crate::specs::Generated::with_tables))]
fn lay_tables(image: &mut Bytes)
    requires { image_size ≤ length image.old }
    ensures image { image.new ≡ with_tables image.old }
    ensures whole { length image.new ≡ length image.old }
{
    lay_doubleword(image, 0x1_0010, 0x4000_0000_0002_00ad);
    lay_doubleword(image, 0x2_0000, 0x8000_0000_0003_0009);
    lay_doubleword(image, 0x3_0000, 0x8000_0000_0003_1009);
    lay_doubleword(image, 0x3_1000, 0x8000_0000_0003_2009);
}

/// The real page of a page.
fn real_page(turn: u64, page: u64) -> u64
    requires { turn < 8 }
    ensures value { result ≡ real_page turn page }
    ensures bound { result ≤ page + 7 }
{
    if 64 <= page && page <= 71 {
        64 + (page - 64 + turn) % 8
    } else {
        page
    }
}

/// The leaf of a page.
fn leaf(turn: u64, page: u64) -> u64
    requires turn { turn < 8 }
    requires page { page < leaf_count }
    ensures { result ≡ leaf turn page }
{
    0xc000_0000_0000_0187 + 4096 * real_page(turn, page)
}

/// Lays the leaves of the first pages.
#[tactic(auto, unfolding(crate::specs::Generated::with_leaves))]
fn lay_leaves(image: &mut Bytes, turn: u64, pages: usize)
    requires turn { turn < 8 }
    requires pages { pages ≤ leaf_count }
    requires room { image_size ≤ length image.old }
    ensures image { image.new ≡ with_leaves pages turn 0 image.old }
    ensures whole { length image.new ≡ length image.old }
{
    for page in 0..pages {
        lay_doubleword(image, LEAVES + 8 * page, leaf(turn, page as u64));
    }
}

/// One of registers 8 to 15, by the next draw.
fn register(draws: &mut Draws) -> u8
    ensures value { result ≡ 8 + draw 1 8 draws.old }
    ensures bound { result < 32 }
    ensures number { draws.new ≡ next_number draws.old }
{
    8 + draws.below(8) as u8
}

/// The instruction that the next five draws choose.
#[tactic(auto, unfolding(crate::specs::Generated::drawn_word))]
fn drawn_word(draws: &mut Draws) -> u32
    ensures word { result ≡ drawn_word draws.old }
    ensures number { draws.new ≡ number_behind 5 draws.old }
{
    let k = draws.below(8);
    let t = register(draws);
    let a = register(draws);
    let b = register(draws);
    let i = draws.below(65536) as u16;
    chosen(k, t, a, b, i)
}

/// The branch from behind the drawn instructions to the first of them.
fn back() -> u32
    ensures { result ≡ back }
{
    branch_back(LENGTH as u32)
}

/// Lays so many drawn instructions from a place on, and behind them the branch back.
#[tactic(auto, unfolding(crate::specs::Generated::program))]
fn lay_program(image: &mut Bytes, draws: &mut Draws, at: usize, count: usize)
    requires room { at + 4 * count + 4 ≤ length image.old }
    requires small { at + 4 * count < 2 ^ 64 }
    ensures image { image.new ≡ with_words at (program count draws.old) image.old }
    ensures whole { length image.new ≡ length image.old }
{
    let mut next = at;
    for done in 0..count {
        let word = drawn_word(draws);
        lay_word(image, next, word);
        next += 4;
    }
    lay_word(image, next, back());
}

/// What a seed generates, over so many zeros.
#[tactic(auto, unfolding(crate::specs::Generated::image_over))]
fn image_over(alloc: Global, size: usize, seed: u64) -> Result<Bytes, NoMemory>
    requires { image_size ≤ size }
    ensures image { IfOk result (λ image. image ≡ image_over size seed) }
    ensures whole { IfOk result (λ image. length image ≡ size) }
{
    let mut image = Bytes::zeros(alloc, size)?;
    let mut draws = Draws::new(seed);
    let turn = draws.below(8);
    let period = 1000 + draws.below(1000) as u16;
    lay_start(&mut image, &mut draws, period);
    lay_handler(&mut image, period);
    lay_tables(&mut image);
    lay_leaves(&mut image, turn, PAGES);
    lay_program(&mut image, &mut draws, PROGRAM, LENGTH);
    Ok(image)
}

/// The image that a seed generates, of 1,572,864 bytes from address 0 on; every seed has one, and always the same.
///
/// At 0 stands a start that sets the registers and goes to the program, and at 0x900 a handler of the decrementer's
/// interrupt (Book III, interrupt vectors). From 0x10000 on stand the tables of radix translation of process 1, the most
/// significant byte of each doubleword first, with a leaf for each of its first 512 pages of 4 KiB (Book III, radix
/// trees). At 0x100000 stand 131,071 drawn instructions and a branch back to the first (Book I, instruction formats), the
/// least significant byte of each word first. All else is 0.
///
/// Memory is taken once, for the image. The only error is want of it.
#[tactic(auto, unfolding(crate::specs::Generated::generated))]
pub fn generate(alloc: Global, seed: u64) -> Result<Bytes, NoMemory>
    ensures image { IfOk result (λ image. image ≡ generated seed) }
    ensures whole { IfOk result (λ image. length image ≡ image_size) }
{
    image_over(alloc, SIZE, seed)
}
