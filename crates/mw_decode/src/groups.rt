ghost use Rattle.std.specs.Prelude.{◌≡◌, IsTrue, length};
ghost use Rattle.mw_tables.specs.declared.row.PrefixKind.TheVariants.{Plain, Mls, Eight, Nop};
ghost use Rattle.mw_tables.specs.Rows.{table};
ghost use Rattle.mw_decode.specs.Groups.{LeadsTo, groups_fit};

use mw_tables::PrefixKind;

/// Where the rows of a primary opcode are found: by a part of the word, or of the suffix.
pub struct Group {
    /// How many bits stand to the right of the part.
    pub shift: u32,
    /// The ones of the part, at the right.
    pub mask: u32,
    /// The place in the table for each number that the part can hold. Where two rows share the
    /// number, they are neighbours, and it is the first one's place.
    pub places: &'static [u16],
}

/// A place past the table, where no row is.
const NO: u16 = 0xffff;

/// A primary opcode with no row.
const NONE: Group = Group {
    shift: 0,
    mask: 0,
    places: &[NO],
};

/// The groups of words without a prefix, one for each primary opcode.
#[rattlefmt::skip]
static PLAIN: [Group; 64] = [
    NONE, // 0
    NONE, // 1
    Group { shift: 0, mask: 0, places: &[8] }, // 2
    Group { shift: 0, mask: 0, places: &[9] }, // 3
    // 4: bits 26 to 31
    Group { shift: 0, mask: 0x3f, places: &[
        NO, NO, NO, NO, NO, NO, NO, NO, NO, NO, NO, NO, NO, NO, NO, NO, // 0
        NO, NO, NO, NO, NO, NO, NO, NO, NO, NO, NO, NO, NO, NO, NO, NO, // 16
        NO, NO, NO, NO, NO, NO, NO, NO, NO, NO, NO, NO, NO, NO, NO, NO, // 32
        40, 41, NO, 42, NO, NO, NO, NO, NO, NO, NO, NO, NO, NO, NO, NO, // 48
    ] },
    NONE, // 5
    NONE, // 6
    Group { shift: 0, mask: 0, places: &[5] }, // 7
    Group { shift: 0, mask: 0, places: &[4] }, // 8
    NONE, // 9
    Group { shift: 0, mask: 0, places: &[7] }, // 10
    Group { shift: 0, mask: 0, places: &[6] }, // 11
    Group { shift: 0, mask: 0, places: &[2] }, // 12
    Group { shift: 0, mask: 0, places: &[3] }, // 13
    Group { shift: 0, mask: 0, places: &[0] }, // 14
    Group { shift: 0, mask: 0, places: &[1] }, // 15
    Group { shift: 0, mask: 0, places: &[18] }, // 16
    Group { shift: 1, mask: 1, places: &[NO, 196] }, // 17: bit 30
    Group { shift: 0, mask: 0, places: &[17] }, // 18
    // 19: bits 21 to 30
    Group { shift: 1, mask: 0x3ff, places: &[
        30, NO, 16, NO, NO, NO, NO, NO, NO, NO, NO, NO, NO, NO, NO, NO, // 0
        19, NO, 197, NO, NO, NO, NO, NO, NO, NO, NO, NO, NO, NO, NO, NO, // 16
        NO, 22, 16, NO, NO, NO, NO, NO, NO, NO, NO, NO, NO, NO, NO, NO, // 32
        NO, NO, NO, NO, NO, NO, NO, NO, NO, NO, NO, NO, NO, NO, NO, NO, // 48
        NO, NO, 16, NO, NO, NO, NO, NO, NO, NO, NO, NO, NO, NO, NO, NO, // 64
        NO, NO, NO, NO, NO, NO, NO, NO, NO, NO, NO, NO, NO, NO, NO, NO, // 80
        NO, NO, 16, NO, NO, NO, NO, NO, NO, NO, NO, NO, NO, NO, NO, NO, // 96
        NO, NO, NO, NO, NO, NO, NO, NO, NO, NO, NO, NO, NO, NO, NO, NO, // 112
        NO, 23, 16, NO, NO, NO, NO, NO, NO, NO, NO, NO, NO, NO, NO, NO, // 128
        NO, NO, NO, NO, NO, NO, 199, NO, NO, NO, NO, NO, NO, NO, NO, NO, // 144
        NO, NO, 16, NO, NO, NO, NO, NO, NO, NO, NO, NO, NO, NO, NO, NO, // 160
        NO, NO, NO, NO, NO, NO, NO, NO, NO, NO, NO, NO, NO, NO, NO, NO, // 176
        NO, 24, 16, NO, NO, NO, NO, NO, NO, NO, NO, NO, NO, NO, NO, NO, // 192
        NO, NO, NO, NO, NO, NO, NO, NO, NO, NO, NO, NO, NO, NO, NO, NO, // 208
        NO, 25, 16, NO, NO, NO, NO, NO, NO, NO, NO, NO, NO, NO, NO, NO, // 224
        NO, NO, NO, NO, NO, NO, NO, NO, NO, NO, NO, NO, NO, NO, NO, NO, // 240
        NO, 26, 16, NO, NO, NO, NO, NO, NO, NO, NO, NO, NO, NO, NO, NO, // 256
        NO, NO, 198, NO, NO, NO, NO, NO, NO, NO, NO, NO, NO, NO, NO, NO, // 272
        NO, 27, 16, NO, NO, NO, NO, NO, NO, NO, NO, NO, NO, NO, NO, NO, // 288
        NO, NO, NO, NO, NO, NO, NO, NO, NO, NO, NO, NO, NO, NO, NO, NO, // 304
        NO, NO, 16, NO, NO, NO, NO, NO, NO, NO, NO, NO, NO, NO, NO, NO, // 320
        NO, NO, NO, NO, NO, NO, NO, NO, NO, NO, NO, NO, NO, NO, NO, NO, // 336
        NO, NO, 16, NO, NO, NO, NO, NO, NO, NO, NO, NO, NO, NO, NO, NO, // 352
        NO, NO, NO, NO, NO, NO, NO, NO, NO, NO, NO, NO, NO, NO, NO, NO, // 368
        NO, NO, 16, NO, NO, NO, NO, NO, NO, NO, NO, NO, NO, NO, NO, NO, // 384
        NO, NO, NO, NO, NO, NO, NO, NO, NO, NO, NO, NO, NO, NO, NO, NO, // 400
        NO, 28, 16, NO, NO, NO, NO, NO, NO, NO, NO, NO, NO, NO, NO, NO, // 416
        NO, NO, NO, NO, NO, NO, NO, NO, NO, NO, NO, NO, NO, NO, NO, NO, // 432
        NO, 29, 16, NO, NO, NO, NO, NO, NO, NO, NO, NO, NO, NO, NO, NO, // 448
        NO, NO, NO, NO, NO, NO, NO, NO, NO, NO, NO, NO, NO, NO, NO, NO, // 464
        NO, NO, 16, NO, NO, NO, NO, NO, NO, NO, NO, NO, NO, NO, NO, NO, // 480
        NO, NO, NO, NO, NO, NO, NO, NO, NO, NO, NO, NO, NO, NO, NO, NO, // 496
        NO, NO, 16, NO, NO, NO, NO, NO, NO, NO, NO, NO, NO, NO, NO, NO, // 512
        20, NO, NO, NO, NO, NO, NO, NO, NO, NO, NO, NO, NO, NO, NO, NO, // 528
        NO, NO, 16, NO, NO, NO, NO, NO, NO, NO, NO, NO, NO, NO, NO, NO, // 544
        21, NO, NO, NO, NO, NO, NO, NO, NO, NO, NO, NO, NO, NO, NO, NO, // 560
        NO, NO, 16, NO, NO, NO, NO, NO, NO, NO, NO, NO, NO, NO, NO, NO, // 576
        NO, NO, NO, NO, NO, NO, NO, NO, NO, NO, NO, NO, NO, NO, NO, NO, // 592
        NO, NO, 16, NO, NO, NO, NO, NO, NO, NO, NO, NO, NO, NO, NO, NO, // 608
        NO, NO, NO, NO, NO, NO, NO, NO, NO, NO, NO, NO, NO, NO, NO, NO, // 624
        NO, NO, 16, NO, NO, NO, NO, NO, NO, NO, NO, NO, NO, NO, NO, NO, // 640
        NO, NO, NO, NO, NO, NO, NO, NO, NO, NO, NO, NO, NO, NO, NO, NO, // 656
        NO, NO, 16, NO, NO, NO, NO, NO, NO, NO, NO, NO, NO, NO, NO, NO, // 672
        NO, NO, NO, NO, NO, NO, NO, NO, NO, NO, NO, NO, NO, NO, NO, NO, // 688
        NO, NO, 16, NO, NO, NO, NO, NO, NO, NO, NO, NO, NO, NO, NO, NO, // 704
        NO, NO, NO, NO, NO, NO, NO, NO, NO, NO, NO, NO, NO, NO, NO, NO, // 720
        NO, NO, 16, NO, NO, NO, NO, NO, NO, NO, NO, NO, NO, NO, NO, NO, // 736
        NO, NO, NO, NO, NO, NO, NO, NO, NO, NO, NO, NO, NO, NO, NO, NO, // 752
        NO, NO, 16, NO, NO, NO, NO, NO, NO, NO, NO, NO, NO, NO, NO, NO, // 768
        NO, NO, NO, NO, NO, NO, NO, NO, NO, NO, NO, NO, NO, NO, NO, NO, // 784
        NO, NO, 16, NO, NO, NO, NO, NO, NO, NO, NO, NO, NO, NO, NO, NO, // 800
        NO, NO, NO, NO, NO, NO, NO, NO, NO, NO, NO, NO, NO, NO, NO, NO, // 816
        NO, NO, 16, NO, NO, NO, NO, NO, NO, NO, NO, NO, NO, NO, NO, NO, // 832
        NO, NO, NO, NO, NO, NO, NO, NO, NO, NO, NO, NO, NO, NO, NO, NO, // 848
        NO, NO, 16, NO, NO, NO, NO, NO, NO, NO, NO, NO, NO, NO, NO, NO, // 864
        NO, NO, NO, NO, NO, NO, NO, NO, NO, NO, NO, NO, NO, NO, NO, NO, // 880
        NO, NO, 16, NO, NO, NO, NO, NO, NO, NO, NO, NO, NO, NO, NO, NO, // 896
        NO, NO, NO, NO, NO, NO, NO, NO, NO, NO, NO, NO, NO, NO, NO, NO, // 912
        NO, NO, 16, NO, NO, NO, NO, NO, NO, NO, NO, NO, NO, NO, NO, NO, // 928
        NO, NO, NO, NO, NO, NO, NO, NO, NO, NO, NO, NO, NO, NO, NO, NO, // 944
        NO, NO, 16, NO, NO, NO, NO, NO, NO, NO, NO, NO, NO, NO, NO, NO, // 960
        NO, NO, NO, NO, NO, NO, NO, NO, NO, NO, NO, NO, NO, NO, NO, NO, // 976
        NO, NO, 16, NO, NO, NO, NO, NO, NO, NO, NO, NO, NO, NO, NO, NO, // 992
        NO, NO, NO, NO, NO, NO, NO, NO, NO, NO, NO, NO, NO, NO, NO, NO, // 1008
    ] },
    Group { shift: 0, mask: 0, places: &[33] }, // 20
    Group { shift: 0, mask: 0, places: &[31] }, // 21
    NONE, // 22
    Group { shift: 0, mask: 0, places: &[32] }, // 23
    Group { shift: 0, mask: 0, places: &[10] }, // 24
    Group { shift: 0, mask: 0, places: &[11] }, // 25
    Group { shift: 0, mask: 0, places: &[12] }, // 26
    Group { shift: 0, mask: 0, places: &[13] }, // 27
    Group { shift: 0, mask: 0, places: &[14] }, // 28
    Group { shift: 0, mask: 0, places: &[15] }, // 29
    // 30: bits 27 to 30
    Group { shift: 1, mask: 0xf, places: &[
        34, 34, 35, 35, 36, 36, 37, 37, 38, 39, NO, NO, NO, NO, NO, NO, // 0
    ] },
    // 31: bits 21 to 30
    Group { shift: 1, mask: 0x3ff, places: &[
        112, NO, NO, NO, 114, NO, NO, NO, 47, 57, 46, 59, NO, NO, NO, 116, // 0
        NO, NO, NO, 117, 174, 148, NO, 149, 81, NO, 93, 83, 73, NO, NO, NO, // 16
        113, NO, NO, NO, NO, NO, NO, NO, 44, NO, NO, NO, NO, NO, NO, 116, // 32
        NO, NO, NO, NO, 175, 150, 190, 151, NO, NO, 94, 97, 74, NO, NO, NO, // 48
        NO, NO, NO, NO, 115, NO, NO, NO, NO, 56, NO, 58, NO, NO, NO, 116, // 64
        NO, NO, NO, 203, 176, NO, 191, 152, NO, NO, NO, NO, NO, NO, NO, NO, // 80
        NO, NO, NO, NO, NO, NO, NO, NO, 45, NO, NO, NO, NO, NO, NO, 116, // 96
        NO, NO, NO, NO, 177, NO, NO, 153, NO, NO, 99, NO, 80, NO, NO, NO, // 112
        121, NO, NO, NO, NO, NO, NO, NO, 49, NO, 48, NO, NO, NO, NO, 116, // 128
        119, NO, 204, NO, NO, 163, 178, 164, NO, NO, 102, 105, 107, NO, NO, NO, // 144
        NO, NO, NO, NO, NO, NO, NO, NO, NO, NO, 72, NO, NO, NO, NO, 116, // 160
        NO, NO, 205, NO, NO, 165, NO, 166, NO, NO, 103, 106, 108, NO, NO, NO, // 176
        126, NO, NO, NO, NO, NO, NO, NO, 53, NO, 52, NO, NO, NO, NO, 116, // 192
        NO, NO, NO, NO, NO, NO, 179, 167, NO, NO, NO, 104, 109, NO, NO, NO, // 208
        127, NO, NO, NO, NO, NO, NO, NO, 51, 55, 50, 54, NO, NO, NO, 116, // 224
        NO, NO, NO, NO, NO, NO, 192, 168, NO, NO, NO, NO, 110, NO, NO, NO, // 240
        NO, NO, NO, NO, NO, NO, NO, NO, NO, 69, 43, 71, NO, NO, NO, 116, // 256
        NO, NO, 207, NO, NO, NO, 193, 154, NO, NO, NO, NO, 78, NO, NO, NO, // 272
        NO, NO, NO, NO, NO, NO, NO, NO, NO, NO, NO, NO, NO, NO, NO, 116, // 288
        NO, NO, 206, NO, NO, NO, NO, 155, NO, NO, NO, NO, 77, NO, NO, NO, // 304
        NO, NO, NO, NO, NO, NO, NO, NO, NO, NO, NO, NO, NO, NO, NO, 116, // 320
        NO, NO, NO, 208, NO, 156, NO, 157, NO, NO, NO, NO, NO, NO, NO, NO, // 336
        NO, NO, NO, NO, NO, NO, NO, NO, NO, NO, NO, NO, NO, NO, NO, 116, // 352
        NO, NO, NO, 210, NO, 158, NO, 159, NO, NO, 100, NO, NO, NO, NO, NO, // 368
        122, NO, NO, NO, NO, NO, NO, NO, NO, 65, NO, 67, NO, NO, NO, 116, // 384
        NO, NO, NO, NO, NO, NO, NO, 169, NO, NO, NO, NO, 76, NO, NO, NO, // 400
        123, NO, NO, NO, NO, NO, NO, NO, NO, 64, 72, 66, NO, NO, NO, 116, // 416
        NO, NO, NO, NO, NO, NO, NO, 170, NO, NO, NO, NO, 75, NO, NO, NO, // 432
        124, NO, NO, NO, NO, NO, NO, NO, NO, 61, NO, 63, NO, NO, NO, 116, // 448
        NO, NO, NO, 209, NO, NO, NO, NO, NO, NO, NO, NO, 79, NO, NO, NO, // 464
        125, NO, NO, NO, NO, NO, NO, NO, NO, 60, NO, 62, NO, NO, NO, 116, // 480
        NO, NO, NO, NO, NO, NO, NO, NO, NO, NO, 101, NO, 111, NO, NO, NO, // 496
        NO, NO, NO, NO, NO, NO, NO, NO, 47, 57, 46, 59, NO, NO, NO, 116, // 512
        NO, NO, NO, NO, 160, NO, 161, NO, 82, NO, 95, 84, NO, NO, NO, NO, // 528
        NO, NO, NO, NO, NO, NO, NO, NO, 44, NO, NO, NO, NO, NO, NO, 116, // 544
        NO, NO, NO, NO, NO, NO, 202, NO, NO, NO, 96, 98, NO, NO, NO, NO, // 560
        128, NO, NO, NO, NO, NO, NO, NO, NO, 56, NO, 58, NO, NO, NO, 116, // 576
        NO, NO, NO, NO, NO, NO, 200, NO, NO, NO, NO, NO, NO, NO, NO, NO, // 592
        NO, NO, NO, NO, NO, NO, NO, NO, 45, NO, NO, NO, NO, NO, NO, 116, // 608
        NO, NO, NO, NO, NO, NO, NO, NO, NO, NO, NO, NO, NO, NO, NO, NO, // 624
        NO, NO, NO, NO, NO, NO, NO, NO, 49, NO, 48, NO, NO, NO, NO, 116, // 640
        NO, NO, NO, NO, 171, NO, 172, NO, NO, NO, NO, NO, NO, NO, NO, NO, // 656
        NO, NO, NO, NO, NO, NO, NO, NO, NO, NO, 72, NO, NO, NO, NO, 116, // 672
        NO, NO, NO, NO, NO, NO, 180, NO, NO, NO, NO, NO, NO, NO, NO, NO, // 688
        NO, NO, NO, NO, NO, NO, NO, NO, 53, NO, 52, NO, NO, NO, NO, 116, // 704
        NO, NO, NO, NO, NO, NO, 181, NO, NO, NO, NO, NO, NO, NO, NO, NO, // 720
        NO, NO, NO, NO, NO, NO, NO, NO, 51, 55, 50, 54, NO, NO, NO, 116, // 736
        NO, NO, NO, 211, NO, NO, NO, NO, NO, NO, NO, NO, NO, NO, NO, NO, // 752
        NO, NO, NO, NO, NO, NO, NO, NO, NO, 68, 43, 70, NO, NO, NO, 116, // 768
        NO, NO, NO, NO, NO, 182, 162, NO, 85, NO, 87, NO, NO, NO, NO, NO, // 784
        NO, NO, NO, NO, NO, NO, NO, NO, NO, NO, NO, NO, NO, NO, NO, 116, // 800
        NO, NO, NO, NO, NO, 183, NO, NO, 86, NO, 88, 88, NO, NO, NO, NO, // 816
        NO, NO, NO, NO, NO, NO, NO, NO, NO, NO, NO, NO, NO, NO, NO, 116, // 832
        NO, NO, NO, NO, NO, 184, 201, NO, NO, NO, NO, NO, NO, NO, NO, NO, // 848
        NO, NO, NO, NO, NO, NO, NO, NO, NO, NO, NO, NO, NO, NO, NO, 116, // 864
        NO, NO, NO, NO, NO, 185, NO, NO, NO, NO, 89, 89, NO, NO, NO, NO, // 880
        NO, NO, NO, NO, NO, NO, NO, NO, NO, 65, NO, 67, NO, NO, NO, 116, // 896
        NO, NO, NO, NO, NO, 186, 173, NO, NO, NO, 91, NO, NO, NO, NO, NO, // 912
        NO, NO, NO, NO, NO, NO, NO, NO, NO, 64, 72, 66, NO, NO, NO, 116, // 928
        NO, NO, NO, NO, NO, 187, NO, NO, NO, NO, 90, NO, NO, NO, NO, NO, // 944
        NO, NO, NO, NO, NO, NO, NO, NO, NO, 61, NO, 63, NO, NO, NO, 116, // 960
        NO, NO, NO, NO, NO, 188, 194, NO, NO, NO, 92, NO, NO, NO, NO, NO, // 976
        NO, NO, NO, NO, NO, NO, NO, NO, NO, 60, NO, 62, NO, NO, NO, 116, // 992
        NO, NO, NO, NO, NO, 189, 195, NO, NO, NO, NO, NO, NO, NO, NO, NO, // 1008
    ] },
    Group { shift: 0, mask: 0, places: &[129] }, // 32
    Group { shift: 0, mask: 0, places: &[130] }, // 33
    Group { shift: 0, mask: 0, places: &[131] }, // 34
    Group { shift: 0, mask: 0, places: &[132] }, // 35
    Group { shift: 0, mask: 0, places: &[133] }, // 36
    Group { shift: 0, mask: 0, places: &[134] }, // 37
    Group { shift: 0, mask: 0, places: &[135] }, // 38
    Group { shift: 0, mask: 0, places: &[136] }, // 39
    Group { shift: 0, mask: 0, places: &[137] }, // 40
    Group { shift: 0, mask: 0, places: &[138] }, // 41
    Group { shift: 0, mask: 0, places: &[139] }, // 42
    Group { shift: 0, mask: 0, places: &[140] }, // 43
    Group { shift: 0, mask: 0, places: &[141] }, // 44
    Group { shift: 0, mask: 0, places: &[142] }, // 45
    NONE, // 46
    NONE, // 47
    NONE, // 48
    NONE, // 49
    NONE, // 50
    NONE, // 51
    NONE, // 52
    NONE, // 53
    NONE, // 54
    NONE, // 55
    NONE, // 56
    NONE, // 57
    Group { shift: 0, mask: 3, places: &[143, 144, 145, NO] }, // 58: bits 30 and 31
    NONE, // 59
    NONE, // 60
    NONE, // 61
    Group { shift: 0, mask: 3, places: &[146, 147, NO, NO] }, // 62: bits 30 and 31
    NONE, // 63
];

/// The groups of suffixes behind a prefix of type 2, one for each primary opcode.
#[rattlefmt::skip]
static MLS: [Group; 64] = [
    NONE, // 0
    NONE, // 1
    NONE, // 2
    NONE, // 3
    NONE, // 4
    NONE, // 5
    NONE, // 6
    NONE, // 7
    NONE, // 8
    NONE, // 9
    NONE, // 10
    NONE, // 11
    NONE, // 12
    NONE, // 13
    Group { shift: 0, mask: 0, places: &[212] }, // 14
    NONE, // 15
    NONE, // 16
    NONE, // 17
    NONE, // 18
    NONE, // 19
    NONE, // 20
    NONE, // 21
    NONE, // 22
    NONE, // 23
    NONE, // 24
    NONE, // 25
    NONE, // 26
    NONE, // 27
    NONE, // 28
    NONE, // 29
    NONE, // 30
    NONE, // 31
    Group { shift: 0, mask: 0, places: &[213] }, // 32
    NONE, // 33
    Group { shift: 0, mask: 0, places: &[214] }, // 34
    NONE, // 35
    Group { shift: 0, mask: 0, places: &[215] }, // 36
    NONE, // 37
    Group { shift: 0, mask: 0, places: &[216] }, // 38
    NONE, // 39
    Group { shift: 0, mask: 0, places: &[217] }, // 40
    NONE, // 41
    Group { shift: 0, mask: 0, places: &[218] }, // 42
    NONE, // 43
    Group { shift: 0, mask: 0, places: &[219] }, // 44
    NONE, // 45
    NONE, // 46
    NONE, // 47
    NONE, // 48
    NONE, // 49
    NONE, // 50
    NONE, // 51
    NONE, // 52
    NONE, // 53
    NONE, // 54
    NONE, // 55
    NONE, // 56
    NONE, // 57
    NONE, // 58
    NONE, // 59
    NONE, // 60
    NONE, // 61
    NONE, // 62
    NONE, // 63
];

/// The groups of suffixes behind a prefix of type 0, one for each primary opcode.
#[rattlefmt::skip]
static EIGHT: [Group; 64] = [
    NONE, // 0
    NONE, // 1
    NONE, // 2
    NONE, // 3
    NONE, // 4
    NONE, // 5
    NONE, // 6
    NONE, // 7
    NONE, // 8
    NONE, // 9
    NONE, // 10
    NONE, // 11
    NONE, // 12
    NONE, // 13
    NONE, // 14
    NONE, // 15
    NONE, // 16
    NONE, // 17
    NONE, // 18
    NONE, // 19
    NONE, // 20
    NONE, // 21
    NONE, // 22
    NONE, // 23
    NONE, // 24
    NONE, // 25
    NONE, // 26
    NONE, // 27
    NONE, // 28
    NONE, // 29
    NONE, // 30
    NONE, // 31
    NONE, // 32
    NONE, // 33
    NONE, // 34
    NONE, // 35
    NONE, // 36
    NONE, // 37
    NONE, // 38
    NONE, // 39
    NONE, // 40
    Group { shift: 0, mask: 0, places: &[220] }, // 41
    NONE, // 42
    NONE, // 43
    NONE, // 44
    NONE, // 45
    NONE, // 46
    NONE, // 47
    NONE, // 48
    NONE, // 49
    NONE, // 50
    NONE, // 51
    NONE, // 52
    NONE, // 53
    NONE, // 54
    NONE, // 55
    NONE, // 56
    Group { shift: 0, mask: 0, places: &[221] }, // 57
    NONE, // 58
    NONE, // 59
    NONE, // 60
    Group { shift: 0, mask: 0, places: &[222] }, // 61
    NONE, // 62
    NONE, // 63
];

/// The row of pnop, whose suffix is any.
const PNOP: Group = Group {
    shift: 0,
    mask: 0,
    places: &[223],
};

/// The groups of suffixes behind the prefix of pnop, one for each primary opcode.
static NOP: [Group; 64] = [PNOP; 64];

/// The groups of words without a prefix.
fn plain_groups() -> &'static [Group]
    ensures fit { IsTrue (groups_fit Plain table 0 result.now) }
    ensures count { length result.now ≡ 64 }
{
    &PLAIN
}

/// The groups of suffixes behind a prefix of type 2.
fn mls_groups() -> &'static [Group]
    ensures fit { IsTrue (groups_fit Mls table 0 result.now) }
    ensures count { length result.now ≡ 64 }
{
    &MLS
}

/// The groups of suffixes behind a prefix of type 0.
fn eight_groups() -> &'static [Group]
    ensures fit { IsTrue (groups_fit Eight table 0 result.now) }
    ensures count { length result.now ≡ 64 }
{
    &EIGHT
}

/// The groups of suffixes behind the prefix of pnop.
fn nop_groups() -> &'static [Group]
    ensures fit { IsTrue (groups_fit Nop table 0 result.now) }
    ensures count { length result.now ≡ 64 }
{
    &NOP
}

/// The groups behind a kind of prefix.
fn groups_of(kind: PrefixKind) -> &'static [Group]
    ensures fit { IsTrue (groups_fit kind table 0 result.now) }
    ensures count { length result.now ≡ 64 }
{
    match kind {
        PrefixKind::Plain => plain_groups(),
        PrefixKind::Mls => mls_groups(),
        PrefixKind::Eight => eight_groups(),
        PrefixKind::Nop => nop_groups(),
    }
}

/// The place in the table at which, or right behind which, a row may match: no other place has one
/// that does.
pub fn leading_place(kind: PrefixKind, word: u32) -> u16
    ensures { LeadsTo kind word result }
{
    let group = &groups_of(kind)[(word >> 26) as usize];
    group.places[((word >> group.shift) & group.mask) as usize]
}
