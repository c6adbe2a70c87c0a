use crate::alone::{OTHER, first, lay, retires};
use crate::compares::{BYTES, COMPARES};
use std::test::Fail;

// The words are LLVM's, but for those that choose no field or several by mfocrf and mtocrf and those with reserved bits;
// the values are worked out from the manual's text.

/// What stands in r5 before most rows.
pub const OLD: u64 = 0x5555_5555_5555_5555;

/// A word; CR; the contents of r3, r4, r5 and XER before it; and those of r5 and CR behind it.
pub struct Row(pub u32, pub u32, pub [u64; 4], pub u64, pub u32);

/// mcrf, and the rows of CR logic with each pair of bits, in one field and in several.
#[rattlefmt::skip]
static LOGIC: [Row; 124] = [
    Row(0x4c00_0000, 0xf8c3_5a71, [OTHER, OTHER, OLD, 0], OLD, 0xf8c3_5a71), // mcrf 0,0
    Row(0x4c04_0000, 0xf8c3_5a71, [OTHER, OTHER, OLD, 0], OLD, 0x88c3_5a71), // mcrf 0,1
    Row(0x4c14_0000, 0xf8c3_5a71, [OTHER, OTHER, OLD, 0], OLD, 0xa8c3_5a71), // mcrf 0,5
    Row(0x4c1c_0000, 0xf8c3_5a71, [OTHER, OTHER, OLD, 0], OLD, 0x18c3_5a71), // mcrf 0,7
    Row(0x4c80_0000, 0x1248_9acf, [OTHER, OTHER, OLD, 0], OLD, 0x1148_9acf), // mcrf 1,0
    Row(0x4c84_0000, 0x1248_9acf, [OTHER, OTHER, OLD, 0], OLD, 0x1248_9acf), // mcrf 1,1
    Row(0x4c88_0000, 0x1248_9acf, [OTHER, OTHER, OLD, 0], OLD, 0x1448_9acf), // mcrf 1,2
    Row(0x4c98_0000, 0x1248_9acf, [OTHER, OTHER, OLD, 0], OLD, 0x1c48_9acf), // mcrf 1,6
    Row(0x4d08_0000, 0xf8c3_5a71, [OTHER, OTHER, OLD, 0], OLD, 0xf8c3_5a71), // mcrf 2,2
    Row(0x4d0c_0000, 0xf8c3_5a71, [OTHER, OTHER, OLD, 0], OLD, 0xf833_5a71), // mcrf 2,3
    Row(0x4d14_0000, 0xf8c3_5a71, [OTHER, OTHER, OLD, 0], OLD, 0xf8a3_5a71), // mcrf 2,5
    Row(0x4d8c_0000, 0x1248_9acf, [OTHER, OTHER, OLD, 0], OLD, 0x1248_9acf), // mcrf 3,3
    Row(0x4d90_0000, 0x1248_9acf, [OTHER, OTHER, OLD, 0], OLD, 0x1249_9acf), // mcrf 3,4
    Row(0x4d98_0000, 0x1248_9acf, [OTHER, OTHER, OLD, 0], OLD, 0x124c_9acf), // mcrf 3,6
    Row(0x4e04_0000, 0xf8c3_5a71, [OTHER, OTHER, OLD, 0], OLD, 0xf8c3_8a71), // mcrf 4,1
    Row(0x4e0c_0000, 0xf8c3_5a71, [OTHER, OTHER, OLD, 0], OLD, 0xf8c3_3a71), // mcrf 4,3
    Row(0x4e10_0000, 0xf8c3_5a71, [OTHER, OTHER, OLD, 0], OLD, 0xf8c3_5a71), // mcrf 4,4
    Row(0x4e14_0000, 0xf8c3_5a71, [OTHER, OTHER, OLD, 0], OLD, 0xf8c3_aa71), // mcrf 4,5
    Row(0x4e88_0000, 0x1248_9acf, [OTHER, OTHER, OLD, 0], OLD, 0x1248_94cf), // mcrf 5,2
    Row(0x4e90_0000, 0x1248_9acf, [OTHER, OTHER, OLD, 0], OLD, 0x1248_99cf), // mcrf 5,4
    Row(0x4e94_0000, 0x1248_9acf, [OTHER, OTHER, OLD, 0], OLD, 0x1248_9acf), // mcrf 5,5
    Row(0x4e98_0000, 0x1248_9acf, [OTHER, OTHER, OLD, 0], OLD, 0x1248_9ccf), // mcrf 5,6
    Row(0x4f04_0000, 0xf8c3_5a71, [OTHER, OTHER, OLD, 0], OLD, 0xf8c3_5a81), // mcrf 6,1
    Row(0x4f18_0000, 0xf8c3_5a71, [OTHER, OTHER, OLD, 0], OLD, 0xf8c3_5a71), // mcrf 6,6
    Row(0x4f1c_0000, 0xf8c3_5a71, [OTHER, OTHER, OLD, 0], OLD, 0xf8c3_5a11), // mcrf 6,7
    Row(0x4f80_0000, 0x1248_9acf, [OTHER, OTHER, OLD, 0], OLD, 0x1248_9ac1), // mcrf 7,0
    Row(0x4f88_0000, 0x1248_9acf, [OTHER, OTHER, OLD, 0], OLD, 0x1248_9ac4), // mcrf 7,2
    Row(0x4f9c_0000, 0x1248_9acf, [OTHER, OTHER, OLD, 0], OLD, 0x1248_9acf), // mcrf 7,7
    Row(0x4c01_1042, 0x8688_87ca, [OTHER, OTHER, OLD, 0], OLD, 0x8688_87ca), // crnor 0,1,2
    Row(0x4ffe_e842, 0x666_5e28, [OTHER, OTHER, OLD, 0], OLD, 0x666_5e29), // crnor 31,30,29
    Row(0x4ccd_a042, 0x6180_743b, [OTHER, OTHER, OLD, 0], OLD, 0x6380_743b), // crnor 6,13,20
    Row(0x4e31_1042, 0xf681_9b0d, [OTHER, OTHER, OLD, 0], OLD, 0xf681_9b0d), // crnor 17,17,2
    Row(0x4ca6_2842, 0xd5da_be9e, [OTHER, OTHER, OLD, 0], OLD, 0xd1da_be9e), // crnor 5,6,5
    Row(0x4d31_5042, 0x5470_9458, [OTHER, OTHER, OLD, 0], OLD, 0x5430_9458), // crnor 9,17,10
    Row(0x4f9f_e042, 0x61b8_c947, [OTHER, OTHER, OLD, 0], OLD, 0x61b8_c947), // crnor 28,31,28
    Row(0x4de0_f842, 0xc73b_e34a, [OTHER, OTHER, OLD, 0], OLD, 0xc73a_e34a), // crnor 15,0,31
    Row(0x4edd_b042, 0x5b9f_5185, [OTHER, OTHER, OLD, 0], OLD, 0x5b9f_5185), // crnor 22,29,22
    Row(0x4c01_1042, 0x62a7_ad05, [OTHER, OTHER, OLD, 0], OLD, 0x62a7_ad05), // crnor 0,1,2
    Row(0x4ffe_e842, 0xf4b3_d6c6, [OTHER, OTHER, OLD, 0], OLD, 0xf4b3_d6c6), // crnor 31,30,29
    Row(0x4ccd_a042, 0x60fd_5e07, [OTHER, OTHER, OLD, 0], OLD, 0x60fd_5e07), // crnor 6,13,20
    Row(0x4e31_1102, 0x56a_2fd7, [OTHER, OTHER, OLD, 0], OLD, 0x56a_2fd7), // crandc 17,17,2
    Row(0x4ca6_2902, 0xf985_c1ba, [OTHER, OTHER, OLD, 0], OLD, 0xf985_c1ba), // crandc 5,6,5
    Row(0x4d2a_5102, 0x2e8a_7062, [OTHER, OTHER, OLD, 0], OLD, 0x2e8a_7062), // crandc 9,10,10
    Row(0x4f9f_e102, 0xdafe_3f0c, [OTHER, OTHER, OLD, 0], OLD, 0xdafe_3f04), // crandc 28,31,28
    Row(0x4de0_f902, 0x3a8b_8b47, [OTHER, OTHER, OLD, 0], OLD, 0x3a8a_8b47), // crandc 15,0,31
    Row(0x4edd_b102, 0x26c9_7ae1, [OTHER, OTHER, OLD, 0], OLD, 0x26c9_78e1), // crandc 22,29,22
    Row(0x4c01_1102, 0xd4ae_c2c1, [OTHER, OTHER, OLD, 0], OLD, 0xd4ae_c2c1), // crandc 0,1,2
    Row(0x4ffe_e902, 0xe085_d7fa, [OTHER, OTHER, OLD, 0], OLD, 0xe085_d7fb), // crandc 31,30,29
    Row(0x4ccd_a102, 0x2e07_1594, [OTHER, OTHER, OLD, 0], OLD, 0x2e07_1594), // crandc 6,13,20
    Row(0x4e31_1102, 0x2d05_c1cd, [OTHER, OTHER, OLD, 0], OLD, 0x2d05_81cd), // crandc 17,17,2
    Row(0x4ca6_2902, 0x9ec6_fff6, [OTHER, OTHER, OLD, 0], OLD, 0x9ac6_fff6), // crandc 5,6,5
    Row(0x4d2a_5102, 0x2e7d_b009, [OTHER, OTHER, OLD, 0], OLD, 0x2e3d_b009), // crandc 9,10,10
    Row(0x4f9f_e182, 0x2fd7_0db4, [OTHER, OTHER, OLD, 0], OLD, 0x2fd7_0db4), // crxor 28,31,28
    Row(0x4de0_f982, 0x2641_c24e, [OTHER, OTHER, OLD, 0], OLD, 0x2640_c24e), // crxor 15,0,31
    Row(0x4ed6_b182, 0x38e4_a9ab, [OTHER, OTHER, OLD, 0], OLD, 0x38e4_a9ab), // crxor 22,22,22
    Row(0x4c01_1182, 0x39a5_8e05, [OTHER, OTHER, OLD, 0], OLD, 0xb9a5_8e05), // crxor 0,1,2
    Row(0x4ffe_e982, 0xede1_d20d, [OTHER, OTHER, OLD, 0], OLD, 0xede1_d20d), // crxor 31,30,29
    Row(0x4ccd_a182, 0xbcd8_9f81, [OTHER, OTHER, OLD, 0], OLD, 0xbed8_9f81), // crxor 6,13,20
    Row(0x4e31_1182, 0x9a6e_fe13, [OTHER, OTHER, OLD, 0], OLD, 0x9a6e_fe13), // crxor 17,17,2
    Row(0x4ca6_2982, 0x3bb2_9162, [OTHER, OTHER, OLD, 0], OLD, 0x3fb2_9162), // crxor 5,6,5
    Row(0x4d31_5182, 0x4cd2_f493, [OTHER, OTHER, OLD, 0], OLD, 0x4cd2_f493), // crxor 9,17,10
    Row(0x4f9f_e182, 0x9058_eedd, [OTHER, OTHER, OLD, 0], OLD, 0x9058_eed5), // crxor 28,31,28
    Row(0x4de0_f982, 0x80a6_694d, [OTHER, OTHER, OLD, 0], OLD, 0x80a6_694d), // crxor 15,0,31
    Row(0x4ed6_b182, 0xa2e6_877e, [OTHER, OTHER, OLD, 0], OLD, 0xa2e6_857e), // crxor 22,22,22
    Row(0x4c01_11c2, 0x9094_11e9, [OTHER, OTHER, OLD, 0], OLD, 0x9094_11e9), // crnand 0,1,2
    Row(0x4ffe_e9c2, 0x4761_bbb1, [OTHER, OTHER, OLD, 0], OLD, 0x4761_bbb1), // crnand 31,30,29
    Row(0x4ccd_a1c2, 0x4c58_3366, [OTHER, OTHER, OLD, 0], OLD, 0x4e58_3366), // crnand 6,13,20
    Row(0x4e31_11c2, 0x7438_397e, [OTHER, OTHER, OLD, 0], OLD, 0x7438_797e), // crnand 17,17,2
    Row(0x4ca6_29c2, 0xa4a4_02ce, [OTHER, OTHER, OLD, 0], OLD, 0xa4a4_02ce), // crnand 5,6,5
    Row(0x4d31_51c2, 0xaa33_3b77, [OTHER, OTHER, OLD, 0], OLD, 0xaa73_3b77), // crnand 9,17,10
    Row(0x4f9f_e1c2, 0x69c8_73f7, [OTHER, OTHER, OLD, 0], OLD, 0x69c8_73ff), // crnand 28,31,28
    Row(0x4de0_f9c2, 0xc050_1348, [OTHER, OTHER, OLD, 0], OLD, 0xc051_1348), // crnand 15,0,31
    Row(0x4edd_b1c2, 0x6b5c_3086, [OTHER, OTHER, OLD, 0], OLD, 0x6b5c_3286), // crnand 22,29,22
    Row(0x4c01_11c2, 0x746b_f234, [OTHER, OTHER, OLD, 0], OLD, 0x746b_f234), // crnand 0,1,2
    Row(0x4ffe_e9c2, 0x81c8_a8ae, [OTHER, OTHER, OLD, 0], OLD, 0x81c8_a8ae), // crnand 31,30,29
    Row(0x4ccd_a1c2, 0xfaef_4c94, [OTHER, OTHER, OLD, 0], OLD, 0xf8ef_4c94), // crnand 6,13,20
    Row(0x4e31_1202, 0x51d6_9321, [OTHER, OTHER, OLD, 0], OLD, 0x51d6_9321), // crand 17,17,2
    Row(0x4ca6_2a02, 0xd00b_ac10, [OTHER, OTHER, OLD, 0], OLD, 0xd00b_ac10), // crand 5,6,5
    Row(0x4d2a_5202, 0xbadd_66eb, [OTHER, OTHER, OLD, 0], OLD, 0xba9d_66eb), // crand 9,10,10
    Row(0x4f9f_e202, 0xfb1f_6bdc, [OTHER, OTHER, OLD, 0], OLD, 0xfb1f_6bd4), // crand 28,31,28
    Row(0x4de0_fa02, 0x2894_f17f, [OTHER, OTHER, OLD, 0], OLD, 0x2894_f17f), // crand 15,0,31
    Row(0x4edd_b202, 0xf3b5_3e9a, [OTHER, OTHER, OLD, 0], OLD, 0xf3b5_3c9a), // crand 22,29,22
    Row(0x4c01_1202, 0x5b5e_b9fb, [OTHER, OTHER, OLD, 0], OLD, 0x5b5e_b9fb), // crand 0,1,2
    Row(0x4ffe_ea02, 0x1b19_f7e3, [OTHER, OTHER, OLD, 0], OLD, 0x1b19_f7e2), // crand 31,30,29
    Row(0x4ccd_a202, 0xa7fe_b5f5, [OTHER, OTHER, OLD, 0], OLD, 0xa5fe_b5f5), // crand 6,13,20
    Row(0x4e31_1202, 0xae19_60fe, [OTHER, OTHER, OLD, 0], OLD, 0xae19_60fe), // crand 17,17,2
    Row(0x4ca6_2a02, 0xbf69_b180, [OTHER, OTHER, OLD, 0], OLD, 0xbf69_b180), // crand 5,6,5
    Row(0x4d2a_5202, 0xf7f5_e50a, [OTHER, OTHER, OLD, 0], OLD, 0xf7f5_e50a), // crand 9,10,10
    Row(0x4f9f_e242, 0x77dd_3462, [OTHER, OTHER, OLD, 0], OLD, 0x77dd_346a), // creqv 28,31,28
    Row(0x4de0_fa42, 0x63b8_184a, [OTHER, OTHER, OLD, 0], OLD, 0x63b9_184a), // creqv 15,0,31
    Row(0x4ed6_b242, 0x86e6_a034, [OTHER, OTHER, OLD, 0], OLD, 0x86e6_a234), // creqv 22,22,22
    Row(0x4c01_1242, 0x353e_6365, [OTHER, OTHER, OLD, 0], OLD, 0x353e_6365), // creqv 0,1,2
    Row(0x4ffe_ea42, 0x8c18_70bc, [OTHER, OTHER, OLD, 0], OLD, 0x8c18_70bc), // creqv 31,30,29
    Row(0x4ccd_a242, 0xd02b_5cc5, [OTHER, OTHER, OLD, 0], OLD, 0xd02b_5cc5), // creqv 6,13,20
    Row(0x4e31_1242, 0xd78d_eaeb, [OTHER, OTHER, OLD, 0], OLD, 0xd78d_aaeb), // creqv 17,17,2
    Row(0x4ca6_2a42, 0xb2ef_c7c4, [OTHER, OTHER, OLD, 0], OLD, 0xb2ef_c7c4), // creqv 5,6,5
    Row(0x4d31_5242, 0x6e94_584c, [OTHER, OTHER, OLD, 0], OLD, 0x6e94_584c), // creqv 9,17,10
    Row(0x4f9f_e242, 0xb8e6_dd69, [OTHER, OTHER, OLD, 0], OLD, 0xb8e6_dd69), // creqv 28,31,28
    Row(0x4de0_fa42, 0xe4cc_dccd, [OTHER, OTHER, OLD, 0], OLD, 0xe4cd_dccd), // creqv 15,0,31
    Row(0x4ed6_b242, 0x9eca_5aa7, [OTHER, OTHER, OLD, 0], OLD, 0x9eca_5aa7), // creqv 22,22,22
    Row(0x4c01_1342, 0x9547_6137, [OTHER, OTHER, OLD, 0], OLD, 0x9547_6137), // crorc 0,1,2
    Row(0x4ffe_eb42, 0x3c66_74f1, [OTHER, OTHER, OLD, 0], OLD, 0x3c66_74f1), // crorc 31,30,29
    Row(0x4ccd_a342, 0xf1a_e120, [OTHER, OTHER, OLD, 0], OLD, 0xf1a_e120), // crorc 6,13,20
    Row(0x4e31_1342, 0xf6bd_a7df, [OTHER, OTHER, OLD, 0], OLD, 0xf6bd_a7df), // crorc 17,17,2
    Row(0x4ca6_2b42, 0x359c_dbde, [OTHER, OTHER, OLD, 0], OLD, 0x319c_dbde), // crorc 5,6,5
    Row(0x4d31_5342, 0x2269_9f69, [OTHER, OTHER, OLD, 0], OLD, 0x2229_9f69), // crorc 9,17,10
    Row(0x4f9f_e342, 0x330_a607, [OTHER, OTHER, OLD, 0], OLD, 0x330_a60f), // crorc 28,31,28
    Row(0x4de0_fb42, 0xe0df_3cc8, [OTHER, OTHER, OLD, 0], OLD, 0xe0df_3cc8), // crorc 15,0,31
    Row(0x4edd_b342, 0xf1d2_a9f5, [OTHER, OTHER, OLD, 0], OLD, 0xf1d2_abf5), // crorc 22,29,22
    Row(0x4c01_1342, 0x6bc3_71b3, [OTHER, OTHER, OLD, 0], OLD, 0xebc3_71b3), // crorc 0,1,2
    Row(0x4ffe_eb42, 0x96b3_1eb7, [OTHER, OTHER, OLD, 0], OLD, 0x96b3_1eb7), // crorc 31,30,29
    Row(0x4ccd_a342, 0x66dd_0b45, [OTHER, OTHER, OLD, 0], OLD, 0x66dd_0b45), // crorc 6,13,20
    Row(0x4e31_1382, 0x49cd_0ef7, [OTHER, OTHER, OLD, 0], OLD, 0x49cd_0ef7), // cror 17,17,2
    Row(0x4ca6_2b82, 0x902a_ed72, [OTHER, OTHER, OLD, 0], OLD, 0x902a_ed72), // cror 5,6,5
    Row(0x4d2a_5382, 0x3948_59fc, [OTHER, OTHER, OLD, 0], OLD, 0x3908_59fc), // cror 9,10,10
    Row(0x4f9f_e382, 0xdc75_568c, [OTHER, OTHER, OLD, 0], OLD, 0xdc75_568c), // cror 28,31,28
    Row(0x4de0_fb82, 0x208a_2529, [OTHER, OTHER, OLD, 0], OLD, 0x208b_2529), // cror 15,0,31
    Row(0x4edd_b382, 0x7143_0622, [OTHER, OTHER, OLD, 0], OLD, 0x7143_0622), // cror 22,29,22
    Row(0x4c01_1382, 0x589e_a9f3, [OTHER, OTHER, OLD, 0], OLD, 0xd89e_a9f3), // cror 0,1,2
    Row(0x4ffe_eb82, 0x5c4b_9003, [OTHER, OTHER, OLD, 0], OLD, 0x5c4b_9003), // cror 31,30,29
    Row(0x4ccd_a382, 0xbbb4_f004, [OTHER, OTHER, OLD, 0], OLD, 0xbbb4_f004), // cror 6,13,20
    Row(0x4e31_1382, 0x259a_eb1b, [OTHER, OTHER, OLD, 0], OLD, 0x259a_eb1b), // cror 17,17,2
    Row(0x4ca6_2b82, 0x76e8_097d, [OTHER, OTHER, OLD, 0], OLD, 0x76e8_097d), // cror 5,6,5
    Row(0x4d2a_5382, 0x26fb_b748, [OTHER, OTHER, OLD, 0], OLD, 0x26fb_b748), // cror 9,10,10
];

/// CR or some of its fields to a register and back, and XER to a field.
#[rattlefmt::skip]
static MOVES: [Row; 67] = [
    Row(0x7ca0_0026, 0x1248_9acf, [OTHER, OTHER, OLD, 0], 0x1248_9acf, 0x1248_9acf), // mfcr r5
    Row(0x7ca0_0026, 0xffff_ffff, [OTHER, OTHER, OLD, 0], 0xffff_ffff, 0xffff_ffff), // mfcr r5
    Row(0x7caf_f026, 0x8765_4321, [OTHER, OTHER, OLD, 0], 0x8765_4321, 0x8765_4321), // mfcr r5, with its reserved bits
    Row(0x7cb0_0026, 0xfedc_ba98, [OTHER, OTHER, OLD, 0], 0, 0xfedc_ba98), // mfocrf r5,0
    Row(0x7cb8_0026, 0xfedc_ba98, [OTHER, OTHER, OLD, 0], 0xf000_0000, 0xfedc_ba98), // mfocrf r5,128
    Row(0x7cb4_0026, 0xfedc_ba98, [OTHER, OTHER, OLD, 0], 0xe00_0000, 0xfedc_ba98), // mfocrf r5,64
    Row(0x7cb2_0026, 0xfedc_ba98, [OTHER, OTHER, OLD, 0], 0xd0_0000, 0xfedc_ba98), // mfocrf r5,32
    Row(0x7cb1_0026, 0xfedc_ba98, [OTHER, OTHER, OLD, 0], 0xc_0000, 0xfedc_ba98), // mfocrf r5,16
    Row(0x7cb0_8026, 0xfedc_ba98, [OTHER, OTHER, OLD, 0], 0xb000, 0xfedc_ba98), // mfocrf r5,8
    Row(0x7cb0_4026, 0xfedc_ba98, [OTHER, OTHER, OLD, 0], 0xa00, 0xfedc_ba98), // mfocrf r5,4
    Row(0x7cb0_2026, 0xfedc_ba98, [OTHER, OTHER, OLD, 0], 0x90, 0xfedc_ba98), // mfocrf r5,2
    Row(0x7cb0_1026, 0x1248_9acf, [OTHER, OTHER, OLD, 0], 0xf, 0x1248_9acf), // mfocrf r5,1
    Row(0x7cb8_1026, 0x1248_9acf, [OTHER, OTHER, OLD, 0], 0x1000_000f, 0x1248_9acf), // mfocrf r5,129
    Row(0x7cb1_8026, 0xfedc_ba98, [OTHER, OTHER, OLD, 0], 0xc_b000, 0xfedc_ba98), // mfocrf r5,24
    Row(0x7cb5_5026, 0x1248_9acf, [OTHER, OTHER, OLD, 0], 0x208_0a0f, 0x1248_9acf), // mfocrf r5,85
    Row(0x7cba_a026, 0xfedc_ba98, [OTHER, OTHER, OLD, 0], 0xf0d0_b090, 0xfedc_ba98), // mfocrf r5,170
    Row(0x7cb7_e026, 0xfedc_ba98, [OTHER, OTHER, OLD, 0], 0xedc_ba90, 0xfedc_ba98), // mfocrf r5,126
    Row(0x7cbf_e026, 0xfedc_ba98, [OTHER, OTHER, OLD, 0], 0xfedc_ba90, 0xfedc_ba98), // mfocrf r5,254
    Row(0x7cbf_f026, 0x1248_9acf, [OTHER, OTHER, OLD, 0], 0x1248_9acf, 0x1248_9acf), // mfocrf r5,255
    Row(0x7c60_0120, 0xf1e_2d3c, [0x9999_9999_8421_7365, OTHER, OLD, 0], OLD, 0xf1e_2d3c), // mtcrf 0,r3
    Row(0x7c70_0120, 0xf1e_2d3c, [0xffff_ffff_1357_9bdf, OTHER, OLD, 0], OLD, 0xf1e_2d3c), // mtocrf 0,r3
    Row(0x7c68_0120, 0xf1e_2d3c, [0x9999_9999_8421_7365, OTHER, OLD, 0], OLD, 0x8f1e_2d3c), // mtcrf 128,r3
    Row(0x7c78_0120, 0xf1e_2d3c, [0xffff_ffff_1357_9bdf, OTHER, OLD, 0], OLD, 0x1f1e_2d3c), // mtocrf 128,r3
    Row(0x7c64_0120, 0xf1e_2d3c, [0x9999_9999_8421_7365, OTHER, OLD, 0], OLD, 0x41e_2d3c), // mtcrf 64,r3
    Row(0x7c74_0120, 0xf1e_2d3c, [0xffff_ffff_1357_9bdf, OTHER, OLD, 0], OLD, 0x31e_2d3c), // mtocrf 64,r3
    Row(0x7c62_0120, 0xf1e_2d3c, [0x9999_9999_8421_7365, OTHER, OLD, 0], OLD, 0xf2e_2d3c), // mtcrf 32,r3
    Row(0x7c72_0120, 0xf1e_2d3c, [0xffff_ffff_1357_9bdf, OTHER, OLD, 0], OLD, 0xf5e_2d3c), // mtocrf 32,r3
    Row(0x7c61_0120, 0xf1e_2d3c, [0x9999_9999_8421_7365, OTHER, OLD, 0], OLD, 0xf11_2d3c), // mtcrf 16,r3
    Row(0x7c71_0120, 0xf1e_2d3c, [0xffff_ffff_1357_9bdf, OTHER, OLD, 0], OLD, 0xf17_2d3c), // mtocrf 16,r3
    Row(0x7c60_8120, 0xf1e_2d3c, [0x9999_9999_8421_7365, OTHER, OLD, 0], OLD, 0xf1e_7d3c), // mtcrf 8,r3
    Row(0x7c70_8120, 0xf1e_2d3c, [0xffff_ffff_1357_9bdf, OTHER, OLD, 0], OLD, 0xf1e_9d3c), // mtocrf 8,r3
    Row(0x7c60_4120, 0xf1e_2d3c, [0x9999_9999_8421_7365, OTHER, OLD, 0], OLD, 0xf1e_233c), // mtcrf 4,r3
    Row(0x7c70_4120, 0xf1e_2d3c, [0xffff_ffff_1357_9bdf, OTHER, OLD, 0], OLD, 0xf1e_2b3c), // mtocrf 4,r3
    Row(0x7c60_2120, 0xf1e_2d3c, [0x9999_9999_8421_7365, OTHER, OLD, 0], OLD, 0xf1e_2d6c), // mtcrf 2,r3
    Row(0x7c70_2120, 0xffff_ffff, [0x7777_7777_0000_0000, OTHER, OLD, 0], OLD, 0xffff_ff0f), // mtocrf 2,r3
    Row(0x7c60_1120, 0xf1e_2d3c, [0x9999_9999_8421_7365, OTHER, OLD, 0], OLD, 0xf1e_2d35), // mtcrf 1,r3
    Row(0x7c70_1120, 0xf1e_2d3c, [0xffff_ffff_1357_9bdf, OTHER, OLD, 0], OLD, 0xf1e_2d3f), // mtocrf 1,r3
    Row(0x7c68_1120, 0xf1e_2d3c, [0x9999_9999_8421_7365, OTHER, OLD, 0], OLD, 0x8f1e_2d35), // mtcrf 129,r3
    Row(0x7c78_1120, 0xf1e_2d3c, [0xffff_ffff_1357_9bdf, OTHER, OLD, 0], OLD, 0x1f1e_2d3f), // mtocrf 129,r3
    Row(0x7c61_8120, 0xf1e_2d3c, [0x9999_9999_8421_7365, OTHER, OLD, 0], OLD, 0xf11_7d3c), // mtcrf 24,r3
    Row(0x7c71_8120, 0xf1e_2d3c, [0xffff_ffff_1357_9bdf, OTHER, OLD, 0], OLD, 0xf17_9d3c), // mtocrf 24,r3
    Row(0x7c65_5120, 0xf1e_2d3c, [0x9999_9999_8421_7365, OTHER, OLD, 0], OLD, 0x411_2335), // mtcrf 85,r3
    Row(0x7c75_5120, 0xf1e_2d3c, [0xffff_ffff_1357_9bdf, OTHER, OLD, 0], OLD, 0x317_2b3f), // mtocrf 85,r3
    Row(0x7c6a_a120, 0xf1e_2d3c, [0x9999_9999_8421_7365, OTHER, OLD, 0], OLD, 0x8f2e_7d6c), // mtcrf 170,r3
    Row(0x7c7a_a120, 0xffff_ffff, [0x7777_7777_0000_0000, OTHER, OLD, 0], OLD, 0xf0f_0f0f), // mtocrf 170,r3
    Row(0x7c67_e120, 0xf1e_2d3c, [0x9999_9999_8421_7365, OTHER, OLD, 0], OLD, 0x421_736c), // mtcrf 126,r3
    Row(0x7c77_e120, 0xffff_ffff, [0x7777_7777_0000_0000, OTHER, OLD, 0], OLD, 0xf000_000f), // mtocrf 126,r3
    Row(0x7c6f_e120, 0xf1e_2d3c, [0x9999_9999_8421_7365, OTHER, OLD, 0], OLD, 0x8421_736c), // mtcrf 254,r3
    Row(0x7c7f_e120, 0xffff_ffff, [0x7777_7777_0000_0000, OTHER, OLD, 0], OLD, 0xf), // mtocrf 254,r3
    Row(0x7c6f_f120, 0xf1e_2d3c, [0x9999_9999_8421_7365, OTHER, OLD, 0], OLD, 0x8421_7365), // mtcrf 255,r3
    Row(0x7c7f_f120, 0xffff_ffff, [0x7777_7777_0000_0000, OTHER, OLD, 0], OLD, 0), // mtocrf 255,r3
    Row(0x7d00_0480, 0xffff_ffff, [OTHER, OTHER, OLD, 0], OLD, 0xff0f_ffff), // mcrxrx 2
    Row(0x7f80_0480, 0, [OTHER, OTHER, OLD, 0x8004_0000], OLD, 1), // mcrxrx 7
    Row(0x7e00_0480, 0xffff_ffff, [OTHER, OTHER, OLD, 0x2000_0000], OLD, 0xffff_2fff), // mcrxrx 4
    Row(0x7c80_0480, 0, [OTHER, OTHER, OLD, 0x2004_0000], OLD, 0x300_0000), // mcrxrx 1
    Row(0x7f00_0480, 0xffff_ffff, [OTHER, OTHER, OLD, 0x8008_0000], OLD, 0xffff_ff4f), // mcrxrx 6
    Row(0x7d80_0480, 0, [OTHER, OTHER, OLD, 0xc_0000], OLD, 0x5_0000), // mcrxrx 3
    Row(0x7c00_0480, 0xffff_ffff, [OTHER, OTHER, OLD, 0x2008_0000], OLD, 0x6fff_ffff), // mcrxrx 0
    Row(0x7e80_0480, 0, [OTHER, OTHER, OLD, 0xa00c_0000], OLD, 0x700), // mcrxrx 5
    Row(0x7d00_0480, 0xffff_ffff, [OTHER, OTHER, OLD, 0x4000_0000], OLD, 0xff8f_ffff), // mcrxrx 2
    Row(0x7f80_0480, 0, [OTHER, OTHER, OLD, 0x4004_0000], OLD, 9), // mcrxrx 7
    Row(0x7e00_0480, 0xffff_ffff, [OTHER, OTHER, OLD, 0xe000_0000], OLD, 0xffff_afff), // mcrxrx 4
    Row(0x7c80_0480, 0, [OTHER, OTHER, OLD, 0x6004_0000], OLD, 0xb00_0000), // mcrxrx 1
    Row(0x7f00_0480, 0xffff_ffff, [OTHER, OTHER, OLD, 0x4008_0000], OLD, 0xffff_ffcf), // mcrxrx 6
    Row(0x7d80_0480, 0, [OTHER, OTHER, OLD, 0xc00c_0000], OLD, 0xd_0000), // mcrxrx 3
    Row(0x7c00_0480, 0xffff_ffff, [OTHER, OTHER, OLD, 0x6008_0000], OLD, 0xefff_ffff), // mcrxrx 0
    Row(0x7e80_0480, 0, [OTHER, OTHER, OLD, 0x600c_0000], OLD, 0xf00), // mcrxrx 5
];

/// What is chosen by a bit or a field of CR.
#[rattlefmt::skip]
static CHOICES: [Row; 164] = [
    Row(0x7ca3_201e, 0x7fff_ffff, [0x1111_2222_3333_4444, 0xcccc_bbbb_aaaa_9999, OLD, 0], 0xcccc_bbbb_aaaa_9999, 0x7fff_ffff), // isel r5,r3,r4,0
    Row(0x7ca3_201e, 0x8000_0000, [0x1111_2222_3333_4444, 0xcccc_bbbb_aaaa_9999, OLD, 0], 0x1111_2222_3333_4444, 0x8000_0000), // isel r5,r3,r4,0
    Row(0x7ca3_205e, 0x4000_0000, [0x1111_2222_3333_4444, 0xcccc_bbbb_aaaa_9999, OLD, 0], 0x1111_2222_3333_4444, 0x4000_0000), // isel r5,r3,r4,1
    Row(0x7ca3_209e, 0x2000_0000, [0x1111_2222_3333_4444, 0xcccc_bbbb_aaaa_9999, OLD, 0], 0x1111_2222_3333_4444, 0x2000_0000), // isel r5,r3,r4,2
    Row(0x7ca3_20de, 0x1000_0000, [0x1111_2222_3333_4444, 0xcccc_bbbb_aaaa_9999, OLD, 0], 0x1111_2222_3333_4444, 0x1000_0000), // isel r5,r3,r4,3
    Row(0x7ca3_211e, 0xf7ff_ffff, [0x1111_2222_3333_4444, 0xcccc_bbbb_aaaa_9999, OLD, 0], 0xcccc_bbbb_aaaa_9999, 0xf7ff_ffff), // isel r5,r3,r4,4
    Row(0x7ca3_211e, 0x800_0000, [0x1111_2222_3333_4444, 0xcccc_bbbb_aaaa_9999, OLD, 0], 0x1111_2222_3333_4444, 0x800_0000), // isel r5,r3,r4,4
    Row(0x7ca3_215e, 0x400_0000, [0x1111_2222_3333_4444, 0xcccc_bbbb_aaaa_9999, OLD, 0], 0x1111_2222_3333_4444, 0x400_0000), // isel r5,r3,r4,5
    Row(0x7ca3_219e, 0x200_0000, [0x1111_2222_3333_4444, 0xcccc_bbbb_aaaa_9999, OLD, 0], 0x1111_2222_3333_4444, 0x200_0000), // isel r5,r3,r4,6
    Row(0x7ca3_21de, 0x100_0000, [0x1111_2222_3333_4444, 0xcccc_bbbb_aaaa_9999, OLD, 0], 0x1111_2222_3333_4444, 0x100_0000), // isel r5,r3,r4,7
    Row(0x7ca3_221e, 0xff7f_ffff, [0x1111_2222_3333_4444, 0xcccc_bbbb_aaaa_9999, OLD, 0], 0xcccc_bbbb_aaaa_9999, 0xff7f_ffff), // isel r5,r3,r4,8
    Row(0x7ca3_221e, 0x80_0000, [0x1111_2222_3333_4444, 0xcccc_bbbb_aaaa_9999, OLD, 0], 0x1111_2222_3333_4444, 0x80_0000), // isel r5,r3,r4,8
    Row(0x7ca3_225e, 0x40_0000, [0x1111_2222_3333_4444, 0xcccc_bbbb_aaaa_9999, OLD, 0], 0x1111_2222_3333_4444, 0x40_0000), // isel r5,r3,r4,9
    Row(0x7ca3_229e, 0x20_0000, [0x1111_2222_3333_4444, 0xcccc_bbbb_aaaa_9999, OLD, 0], 0x1111_2222_3333_4444, 0x20_0000), // isel r5,r3,r4,10
    Row(0x7ca3_22de, 0x10_0000, [0x1111_2222_3333_4444, 0xcccc_bbbb_aaaa_9999, OLD, 0], 0x1111_2222_3333_4444, 0x10_0000), // isel r5,r3,r4,11
    Row(0x7ca3_231e, 0xfff7_ffff, [0x1111_2222_3333_4444, 0xcccc_bbbb_aaaa_9999, OLD, 0], 0xcccc_bbbb_aaaa_9999, 0xfff7_ffff), // isel r5,r3,r4,12
    Row(0x7ca3_231e, 0x8_0000, [0x1111_2222_3333_4444, 0xcccc_bbbb_aaaa_9999, OLD, 0], 0x1111_2222_3333_4444, 0x8_0000), // isel r5,r3,r4,12
    Row(0x7ca3_235e, 0x4_0000, [0x1111_2222_3333_4444, 0xcccc_bbbb_aaaa_9999, OLD, 0], 0x1111_2222_3333_4444, 0x4_0000), // isel r5,r3,r4,13
    Row(0x7ca3_239e, 0x2_0000, [0x1111_2222_3333_4444, 0xcccc_bbbb_aaaa_9999, OLD, 0], 0x1111_2222_3333_4444, 0x2_0000), // isel r5,r3,r4,14
    Row(0x7ca3_23de, 0x1_0000, [0x1111_2222_3333_4444, 0xcccc_bbbb_aaaa_9999, OLD, 0], 0x1111_2222_3333_4444, 0x1_0000), // isel r5,r3,r4,15
    Row(0x7ca3_241e, 0xffff_7fff, [0x1111_2222_3333_4444, 0xcccc_bbbb_aaaa_9999, OLD, 0], 0xcccc_bbbb_aaaa_9999, 0xffff_7fff), // isel r5,r3,r4,16
    Row(0x7ca3_241e, 0x8000, [0x1111_2222_3333_4444, 0xcccc_bbbb_aaaa_9999, OLD, 0], 0x1111_2222_3333_4444, 0x8000), // isel r5,r3,r4,16
    Row(0x7ca3_245e, 0x4000, [0x1111_2222_3333_4444, 0xcccc_bbbb_aaaa_9999, OLD, 0], 0x1111_2222_3333_4444, 0x4000), // isel r5,r3,r4,17
    Row(0x7ca3_249e, 0x2000, [0x1111_2222_3333_4444, 0xcccc_bbbb_aaaa_9999, OLD, 0], 0x1111_2222_3333_4444, 0x2000), // isel r5,r3,r4,18
    Row(0x7ca3_24de, 0x1000, [0x1111_2222_3333_4444, 0xcccc_bbbb_aaaa_9999, OLD, 0], 0x1111_2222_3333_4444, 0x1000), // isel r5,r3,r4,19
    Row(0x7ca3_251e, 0xffff_f7ff, [0x1111_2222_3333_4444, 0xcccc_bbbb_aaaa_9999, OLD, 0], 0xcccc_bbbb_aaaa_9999, 0xffff_f7ff), // isel r5,r3,r4,20
    Row(0x7ca3_251e, 0x800, [0x1111_2222_3333_4444, 0xcccc_bbbb_aaaa_9999, OLD, 0], 0x1111_2222_3333_4444, 0x800), // isel r5,r3,r4,20
    Row(0x7ca3_255e, 0x400, [0x1111_2222_3333_4444, 0xcccc_bbbb_aaaa_9999, OLD, 0], 0x1111_2222_3333_4444, 0x400), // isel r5,r3,r4,21
    Row(0x7ca3_259e, 0x200, [0x1111_2222_3333_4444, 0xcccc_bbbb_aaaa_9999, OLD, 0], 0x1111_2222_3333_4444, 0x200), // isel r5,r3,r4,22
    Row(0x7ca3_25de, 0x100, [0x1111_2222_3333_4444, 0xcccc_bbbb_aaaa_9999, OLD, 0], 0x1111_2222_3333_4444, 0x100), // isel r5,r3,r4,23
    Row(0x7ca3_261e, 0xffff_ff7f, [0x1111_2222_3333_4444, 0xcccc_bbbb_aaaa_9999, OLD, 0], 0xcccc_bbbb_aaaa_9999, 0xffff_ff7f), // isel r5,r3,r4,24
    Row(0x7ca3_261e, 0x80, [0x1111_2222_3333_4444, 0xcccc_bbbb_aaaa_9999, OLD, 0], 0x1111_2222_3333_4444, 0x80), // isel r5,r3,r4,24
    Row(0x7ca3_265e, 0x40, [0x1111_2222_3333_4444, 0xcccc_bbbb_aaaa_9999, OLD, 0], 0x1111_2222_3333_4444, 0x40), // isel r5,r3,r4,25
    Row(0x7ca3_269e, 0x20, [0x1111_2222_3333_4444, 0xcccc_bbbb_aaaa_9999, OLD, 0], 0x1111_2222_3333_4444, 0x20), // isel r5,r3,r4,26
    Row(0x7ca3_26de, 0x10, [0x1111_2222_3333_4444, 0xcccc_bbbb_aaaa_9999, OLD, 0], 0x1111_2222_3333_4444, 0x10), // isel r5,r3,r4,27
    Row(0x7ca3_271e, 0xffff_fff7, [0x1111_2222_3333_4444, 0xcccc_bbbb_aaaa_9999, OLD, 0], 0xcccc_bbbb_aaaa_9999, 0xffff_fff7), // isel r5,r3,r4,28
    Row(0x7ca3_271e, 8, [0x1111_2222_3333_4444, 0xcccc_bbbb_aaaa_9999, OLD, 0], 0x1111_2222_3333_4444, 8), // isel r5,r3,r4,28
    Row(0x7ca3_275e, 4, [0x1111_2222_3333_4444, 0xcccc_bbbb_aaaa_9999, OLD, 0], 0x1111_2222_3333_4444, 4), // isel r5,r3,r4,29
    Row(0x7ca3_279e, 2, [0x1111_2222_3333_4444, 0xcccc_bbbb_aaaa_9999, OLD, 0], 0x1111_2222_3333_4444, 2), // isel r5,r3,r4,30
    Row(0x7ca3_27de, 1, [0x1111_2222_3333_4444, 0xcccc_bbbb_aaaa_9999, OLD, 0], 0x1111_2222_3333_4444, 1), // isel r5,r3,r4,31
    Row(0x7ca0_201e, 0x8000_0000, [0x1111_2222_3333_4444, 0xcccc_bbbb_aaaa_9999, OLD, 0], 0, 0x8000_0000), // isel r5,r0,r4,0
    Row(0x7ca0_201e, 0x7fff_ffff, [0x1111_2222_3333_4444, 0xcccc_bbbb_aaaa_9999, OLD, 0], 0xcccc_bbbb_aaaa_9999, 0x7fff_ffff), // isel r5,r0,r4,0
    Row(0x7ca0_249e, 0x2000, [0x1111_2222_3333_4444, 0xcccc_bbbb_aaaa_9999, OLD, 0], 0, 0x2000), // isel r5,r0,r4,18
    Row(0x7ca0_249e, 0xffff_dfff, [0x1111_2222_3333_4444, 0xcccc_bbbb_aaaa_9999, OLD, 0], 0xcccc_bbbb_aaaa_9999, 0xffff_dfff), // isel r5,r0,r4,18
    Row(0x7ca4_00de, 0, [0x1111_2222_3333_4444, 0xcccc_bbbb_aaaa_9999, OLD, 0], OTHER, 0), // isel r5,r4,r0,3
    Row(0x7ca5_28de, 0, [0x1111_2222_3333_4444, 0xcccc_bbbb_aaaa_9999, OLD, 0], OLD, 0), // isel r5,r5,r5,3
    Row(0x7ca0_0100, 0x8fff_ffff, [OTHER, OTHER, OLD, 0], 0xffff_ffff_ffff_ffff, 0x8fff_ffff), // setb r5,0
    Row(0x7ca0_0100, 0x4000_0000, [OTHER, OTHER, OLD, 0], 1, 0x4000_0000), // setb r5,0
    Row(0x7ca0_0100, 0x2000_0000, [OTHER, OTHER, OLD, 0], 0, 0x2000_0000), // setb r5,0
    Row(0x7ca0_0100, 0x1fff_ffff, [OTHER, OTHER, OLD, 0], 0, 0x1fff_ffff), // setb r5,0
    Row(0x7ca0_0100, 0xfff_ffff, [OTHER, OTHER, OLD, 0], 0, 0xfff_ffff), // setb r5,0
    Row(0x7ca4_0100, 0xf0ff_ffff, [OTHER, OTHER, OLD, 0], 0, 0xf0ff_ffff), // setb r5,1
    Row(0x7ca4_0100, 0xf1ff_ffff, [OTHER, OTHER, OLD, 0], 0, 0xf1ff_ffff), // setb r5,1
    Row(0x7ca4_0100, 0x200_0000, [OTHER, OTHER, OLD, 0], 0, 0x200_0000), // setb r5,1
    Row(0x7ca4_0100, 0xf3ff_ffff, [OTHER, OTHER, OLD, 0], 0, 0xf3ff_ffff), // setb r5,1
    Row(0x7ca4_0100, 0x400_0000, [OTHER, OTHER, OLD, 0], 1, 0x400_0000), // setb r5,1
    Row(0x7ca4_0100, 0xf5ff_ffff, [OTHER, OTHER, OLD, 0], 1, 0xf5ff_ffff), // setb r5,1
    Row(0x7ca4_0100, 0xf6ff_ffff, [OTHER, OTHER, OLD, 0], 1, 0xf6ff_ffff), // setb r5,1
    Row(0x7ca4_0100, 0xf7ff_ffff, [OTHER, OTHER, OLD, 0], 1, 0xf7ff_ffff), // setb r5,1
    Row(0x7ca4_0100, 0xf8ff_ffff, [OTHER, OTHER, OLD, 0], 0xffff_ffff_ffff_ffff, 0xf8ff_ffff), // setb r5,1
    Row(0x7ca4_0100, 0xf9ff_ffff, [OTHER, OTHER, OLD, 0], 0xffff_ffff_ffff_ffff, 0xf9ff_ffff), // setb r5,1
    Row(0x7ca4_0100, 0xfaff_ffff, [OTHER, OTHER, OLD, 0], 0xffff_ffff_ffff_ffff, 0xfaff_ffff), // setb r5,1
    Row(0x7ca4_0100, 0xfbff_ffff, [OTHER, OTHER, OLD, 0], 0xffff_ffff_ffff_ffff, 0xfbff_ffff), // setb r5,1
    Row(0x7ca4_0100, 0xfcff_ffff, [OTHER, OTHER, OLD, 0], 0xffff_ffff_ffff_ffff, 0xfcff_ffff), // setb r5,1
    Row(0x7ca4_0100, 0xfdff_ffff, [OTHER, OTHER, OLD, 0], 0xffff_ffff_ffff_ffff, 0xfdff_ffff), // setb r5,1
    Row(0x7ca4_0100, 0xfeff_ffff, [OTHER, OTHER, OLD, 0], 0xffff_ffff_ffff_ffff, 0xfeff_ffff), // setb r5,1
    Row(0x7ca4_0100, 0xffff_ffff, [OTHER, OTHER, OLD, 0], 0xffff_ffff_ffff_ffff, 0xffff_ffff), // setb r5,1
    Row(0x7ca8_0100, 0xff8f_ffff, [OTHER, OTHER, OLD, 0], 0xffff_ffff_ffff_ffff, 0xff8f_ffff), // setb r5,2
    Row(0x7ca8_0100, 0x40_0000, [OTHER, OTHER, OLD, 0], 1, 0x40_0000), // setb r5,2
    Row(0x7ca8_0100, 0x20_0000, [OTHER, OTHER, OLD, 0], 0, 0x20_0000), // setb r5,2
    Row(0x7ca8_0100, 0xff1f_ffff, [OTHER, OTHER, OLD, 0], 0, 0xff1f_ffff), // setb r5,2
    Row(0x7ca8_0100, 0xff0f_ffff, [OTHER, OTHER, OLD, 0], 0, 0xff0f_ffff), // setb r5,2
    Row(0x7cac_0100, 0xfff8_ffff, [OTHER, OTHER, OLD, 0], 0xffff_ffff_ffff_ffff, 0xfff8_ffff), // setb r5,3
    Row(0x7cac_0100, 0x4_0000, [OTHER, OTHER, OLD, 0], 1, 0x4_0000), // setb r5,3
    Row(0x7cac_0100, 0x2_0000, [OTHER, OTHER, OLD, 0], 0, 0x2_0000), // setb r5,3
    Row(0x7cac_0100, 0xfff1_ffff, [OTHER, OTHER, OLD, 0], 0, 0xfff1_ffff), // setb r5,3
    Row(0x7cac_0100, 0xfff0_ffff, [OTHER, OTHER, OLD, 0], 0, 0xfff0_ffff), // setb r5,3
    Row(0x7cb0_0100, 0xffff_8fff, [OTHER, OTHER, OLD, 0], 0xffff_ffff_ffff_ffff, 0xffff_8fff), // setb r5,4
    Row(0x7cb0_0100, 0x4000, [OTHER, OTHER, OLD, 0], 1, 0x4000), // setb r5,4
    Row(0x7cb0_0100, 0x2000, [OTHER, OTHER, OLD, 0], 0, 0x2000), // setb r5,4
    Row(0x7cb0_0100, 0xffff_1fff, [OTHER, OTHER, OLD, 0], 0, 0xffff_1fff), // setb r5,4
    Row(0x7cb0_0100, 0xffff_0fff, [OTHER, OTHER, OLD, 0], 0, 0xffff_0fff), // setb r5,4
    Row(0x7cb4_0100, 0xffff_f8ff, [OTHER, OTHER, OLD, 0], 0xffff_ffff_ffff_ffff, 0xffff_f8ff), // setb r5,5
    Row(0x7cb4_0100, 0x400, [OTHER, OTHER, OLD, 0], 1, 0x400), // setb r5,5
    Row(0x7cb4_0100, 0x200, [OTHER, OTHER, OLD, 0], 0, 0x200), // setb r5,5
    Row(0x7cb4_0100, 0xffff_f1ff, [OTHER, OTHER, OLD, 0], 0, 0xffff_f1ff), // setb r5,5
    Row(0x7cb4_0100, 0xffff_f0ff, [OTHER, OTHER, OLD, 0], 0, 0xffff_f0ff), // setb r5,5
    Row(0x7cb8_0100, 0xffff_ff0f, [OTHER, OTHER, OLD, 0], 0, 0xffff_ff0f), // setb r5,6
    Row(0x7cb8_0100, 0xffff_ff1f, [OTHER, OTHER, OLD, 0], 0, 0xffff_ff1f), // setb r5,6
    Row(0x7cb8_0100, 0x20, [OTHER, OTHER, OLD, 0], 0, 0x20), // setb r5,6
    Row(0x7cb8_0100, 0xffff_ff3f, [OTHER, OTHER, OLD, 0], 0, 0xffff_ff3f), // setb r5,6
    Row(0x7cb8_0100, 0x40, [OTHER, OTHER, OLD, 0], 1, 0x40), // setb r5,6
    Row(0x7cb8_0100, 0xffff_ff5f, [OTHER, OTHER, OLD, 0], 1, 0xffff_ff5f), // setb r5,6
    Row(0x7cb8_0100, 0xffff_ff6f, [OTHER, OTHER, OLD, 0], 1, 0xffff_ff6f), // setb r5,6
    Row(0x7cb8_0100, 0xffff_ff7f, [OTHER, OTHER, OLD, 0], 1, 0xffff_ff7f), // setb r5,6
    Row(0x7cb8_0100, 0xffff_ff8f, [OTHER, OTHER, OLD, 0], 0xffff_ffff_ffff_ffff, 0xffff_ff8f), // setb r5,6
    Row(0x7cb8_0100, 0xffff_ff9f, [OTHER, OTHER, OLD, 0], 0xffff_ffff_ffff_ffff, 0xffff_ff9f), // setb r5,6
    Row(0x7cb8_0100, 0xffff_ffaf, [OTHER, OTHER, OLD, 0], 0xffff_ffff_ffff_ffff, 0xffff_ffaf), // setb r5,6
    Row(0x7cb8_0100, 0xffff_ffbf, [OTHER, OTHER, OLD, 0], 0xffff_ffff_ffff_ffff, 0xffff_ffbf), // setb r5,6
    Row(0x7cb8_0100, 0xffff_ffcf, [OTHER, OTHER, OLD, 0], 0xffff_ffff_ffff_ffff, 0xffff_ffcf), // setb r5,6
    Row(0x7cb8_0100, 0xffff_ffdf, [OTHER, OTHER, OLD, 0], 0xffff_ffff_ffff_ffff, 0xffff_ffdf), // setb r5,6
    Row(0x7cb8_0100, 0xffff_ffef, [OTHER, OTHER, OLD, 0], 0xffff_ffff_ffff_ffff, 0xffff_ffef), // setb r5,6
    Row(0x7cb8_0100, 0xffff_ffff, [OTHER, OTHER, OLD, 0], 0xffff_ffff_ffff_ffff, 0xffff_ffff), // setb r5,6
    Row(0x7cbc_0100, 0xffff_fff8, [OTHER, OTHER, OLD, 0], 0xffff_ffff_ffff_ffff, 0xffff_fff8), // setb r5,7
    Row(0x7cbc_0100, 4, [OTHER, OTHER, OLD, 0], 1, 4), // setb r5,7
    Row(0x7cbc_0100, 2, [OTHER, OTHER, OLD, 0], 0, 2), // setb r5,7
    Row(0x7cbc_0100, 0xffff_fff1, [OTHER, OTHER, OLD, 0], 0, 0xffff_fff1), // setb r5,7
    Row(0x7cbc_0100, 0xffff_fff0, [OTHER, OTHER, OLD, 0], 0, 0xffff_fff0), // setb r5,7
    Row(0x7ca0_0300, 0x7fff_ffff, [OTHER, OTHER, OLD, 0], 0, 0x7fff_ffff), // setbc r5,0
    Row(0x7ca0_0300, 0x8000_0000, [OTHER, OTHER, OLD, 0], 1, 0x8000_0000), // setbc r5,0
    Row(0x7ca1_0300, 0xbfff_ffff, [OTHER, OTHER, OLD, 0], 0, 0xbfff_ffff), // setbc r5,1
    Row(0x7ca1_0300, 0x4000_0000, [OTHER, OTHER, OLD, 0], 1, 0x4000_0000), // setbc r5,1
    Row(0x7ca7_0300, 0xfeff_ffff, [OTHER, OTHER, OLD, 0], 0, 0xfeff_ffff), // setbc r5,7
    Row(0x7ca7_0300, 0x100_0000, [OTHER, OTHER, OLD, 0], 1, 0x100_0000), // setbc r5,7
    Row(0x7ca8_0300, 0xff7f_ffff, [OTHER, OTHER, OLD, 0], 0, 0xff7f_ffff), // setbc r5,8
    Row(0x7ca8_0300, 0x80_0000, [OTHER, OTHER, OLD, 0], 1, 0x80_0000), // setbc r5,8
    Row(0x7cb2_0300, 0xffff_dfff, [OTHER, OTHER, OLD, 0], 0, 0xffff_dfff), // setbc r5,18
    Row(0x7cb2_0300, 0x2000, [OTHER, OTHER, OLD, 0], 1, 0x2000), // setbc r5,18
    Row(0x7cbe_0300, 0xffff_fffd, [OTHER, OTHER, OLD, 0], 0, 0xffff_fffd), // setbc r5,30
    Row(0x7cbe_0300, 2, [OTHER, OTHER, OLD, 0], 1, 2), // setbc r5,30
    Row(0x7cbf_0300, 0xffff_fffe, [OTHER, OTHER, OLD, 0], 0, 0xffff_fffe), // setbc r5,31
    Row(0x7cbf_0300, 1, [OTHER, OTHER, OLD, 0], 1, 1), // setbc r5,31
    Row(0x7ca0_0340, 0x7fff_ffff, [OTHER, OTHER, OLD, 0], 1, 0x7fff_ffff), // setbcr r5,0
    Row(0x7ca0_0340, 0x8000_0000, [OTHER, OTHER, OLD, 0], 0, 0x8000_0000), // setbcr r5,0
    Row(0x7ca1_0340, 0xbfff_ffff, [OTHER, OTHER, OLD, 0], 1, 0xbfff_ffff), // setbcr r5,1
    Row(0x7ca1_0340, 0x4000_0000, [OTHER, OTHER, OLD, 0], 0, 0x4000_0000), // setbcr r5,1
    Row(0x7ca7_0340, 0xfeff_ffff, [OTHER, OTHER, OLD, 0], 1, 0xfeff_ffff), // setbcr r5,7
    Row(0x7ca7_0340, 0x100_0000, [OTHER, OTHER, OLD, 0], 0, 0x100_0000), // setbcr r5,7
    Row(0x7ca8_0340, 0xff7f_ffff, [OTHER, OTHER, OLD, 0], 1, 0xff7f_ffff), // setbcr r5,8
    Row(0x7ca8_0340, 0x80_0000, [OTHER, OTHER, OLD, 0], 0, 0x80_0000), // setbcr r5,8
    Row(0x7cb2_0340, 0xffff_dfff, [OTHER, OTHER, OLD, 0], 1, 0xffff_dfff), // setbcr r5,18
    Row(0x7cb2_0340, 0x2000, [OTHER, OTHER, OLD, 0], 0, 0x2000), // setbcr r5,18
    Row(0x7cbe_0340, 0xffff_fffd, [OTHER, OTHER, OLD, 0], 1, 0xffff_fffd), // setbcr r5,30
    Row(0x7cbe_0340, 2, [OTHER, OTHER, OLD, 0], 0, 2), // setbcr r5,30
    Row(0x7cbf_0340, 0xffff_fffe, [OTHER, OTHER, OLD, 0], 1, 0xffff_fffe), // setbcr r5,31
    Row(0x7cbf_0340, 1, [OTHER, OTHER, OLD, 0], 0, 1), // setbcr r5,31
    Row(0x7ca0_0380, 0x7fff_ffff, [OTHER, OTHER, OLD, 0], 0, 0x7fff_ffff), // setnbc r5,0
    Row(0x7ca0_0380, 0x8000_0000, [OTHER, OTHER, OLD, 0], 0xffff_ffff_ffff_ffff, 0x8000_0000), // setnbc r5,0
    Row(0x7ca1_0380, 0xbfff_ffff, [OTHER, OTHER, OLD, 0], 0, 0xbfff_ffff), // setnbc r5,1
    Row(0x7ca1_0380, 0x4000_0000, [OTHER, OTHER, OLD, 0], 0xffff_ffff_ffff_ffff, 0x4000_0000), // setnbc r5,1
    Row(0x7ca7_0380, 0xfeff_ffff, [OTHER, OTHER, OLD, 0], 0, 0xfeff_ffff), // setnbc r5,7
    Row(0x7ca7_0380, 0x100_0000, [OTHER, OTHER, OLD, 0], 0xffff_ffff_ffff_ffff, 0x100_0000), // setnbc r5,7
    Row(0x7ca8_0380, 0xff7f_ffff, [OTHER, OTHER, OLD, 0], 0, 0xff7f_ffff), // setnbc r5,8
    Row(0x7ca8_0380, 0x80_0000, [OTHER, OTHER, OLD, 0], 0xffff_ffff_ffff_ffff, 0x80_0000), // setnbc r5,8
    Row(0x7cb2_0380, 0xffff_dfff, [OTHER, OTHER, OLD, 0], 0, 0xffff_dfff), // setnbc r5,18
    Row(0x7cb2_0380, 0x2000, [OTHER, OTHER, OLD, 0], 0xffff_ffff_ffff_ffff, 0x2000), // setnbc r5,18
    Row(0x7cbe_0380, 0xffff_fffd, [OTHER, OTHER, OLD, 0], 0, 0xffff_fffd), // setnbc r5,30
    Row(0x7cbe_0380, 2, [OTHER, OTHER, OLD, 0], 0xffff_ffff_ffff_ffff, 2), // setnbc r5,30
    Row(0x7cbf_0380, 0xffff_fffe, [OTHER, OTHER, OLD, 0], 0, 0xffff_fffe), // setnbc r5,31
    Row(0x7cbf_0380, 1, [OTHER, OTHER, OLD, 0], 0xffff_ffff_ffff_ffff, 1), // setnbc r5,31
    Row(0x7ca0_03c0, 0x7fff_ffff, [OTHER, OTHER, OLD, 0], 0xffff_ffff_ffff_ffff, 0x7fff_ffff), // setnbcr r5,0
    Row(0x7ca0_03c0, 0x8000_0000, [OTHER, OTHER, OLD, 0], 0, 0x8000_0000), // setnbcr r5,0
    Row(0x7ca1_03c0, 0xbfff_ffff, [OTHER, OTHER, OLD, 0], 0xffff_ffff_ffff_ffff, 0xbfff_ffff), // setnbcr r5,1
    Row(0x7ca1_03c0, 0x4000_0000, [OTHER, OTHER, OLD, 0], 0, 0x4000_0000), // setnbcr r5,1
    Row(0x7ca7_03c0, 0xfeff_ffff, [OTHER, OTHER, OLD, 0], 0xffff_ffff_ffff_ffff, 0xfeff_ffff), // setnbcr r5,7
    Row(0x7ca7_03c0, 0x100_0000, [OTHER, OTHER, OLD, 0], 0, 0x100_0000), // setnbcr r5,7
    Row(0x7ca8_03c0, 0xff7f_ffff, [OTHER, OTHER, OLD, 0], 0xffff_ffff_ffff_ffff, 0xff7f_ffff), // setnbcr r5,8
    Row(0x7ca8_03c0, 0x80_0000, [OTHER, OTHER, OLD, 0], 0, 0x80_0000), // setnbcr r5,8
    Row(0x7cb2_03c0, 0xffff_dfff, [OTHER, OTHER, OLD, 0], 0xffff_ffff_ffff_ffff, 0xffff_dfff), // setnbcr r5,18
    Row(0x7cb2_03c0, 0x2000, [OTHER, OTHER, OLD, 0], 0, 0x2000), // setnbcr r5,18
    Row(0x7cbe_03c0, 0xffff_fffd, [OTHER, OTHER, OLD, 0], 0xffff_ffff_ffff_ffff, 0xffff_fffd), // setnbcr r5,30
    Row(0x7cbe_03c0, 2, [OTHER, OTHER, OLD, 0], 0, 2), // setnbcr r5,30
    Row(0x7cbf_03c0, 0xffff_fffe, [OTHER, OTHER, OLD, 0], 0xffff_ffff_ffff_ffff, 0xffff_fffe), // setnbcr r5,31
    Row(0x7cbf_03c0, 1, [OTHER, OTHER, OLD, 0], 0, 1), // setnbcr r5,31
];

#[test]
fn conditions_are_set_and_looked_at(rt: HostRuntime) -> Result<(), Fail> {
    let mut state = first(rt.alloc())?;
    for rows in [
        LOGIC.as_slice(),
        MOVES.as_slice(),
        CHOICES.as_slice(),
        COMPARES.as_slice(),
        BYTES.as_slice(),
    ] {
        for Row(word, before, [third, fourth, fifth, xer], result, behind) in rows {
            lay(&mut state, *word, 0, 0x1000);
            state.regs.gpr[3] = *third;
            state.regs.gpr[4] = *fourth;
            state.regs.gpr[5] = *fifth;
            state.regs.xer = *xer;
            state.regs.cr = *before;
            assert!(rt; retires(&mut state), "{word:08x}");
            let regs = &state.regs;
            assert_eq!(rt; regs.gpr[5], *result, "r5 of {word:08x}");
            assert_eq!(rt; [regs.cr, 0], [*behind, 0], "CR of {word:08x}");
            assert_eq!(rt; [regs.gpr[3], regs.gpr[4]], [*third, *fourth], "{word:08x}");
            assert_eq!(rt; [regs.cia, regs.xer], [0x1004, *xer], "{word:08x}");
            assert_eq!(rt;
                [regs.lr, regs.ctr, regs.gpr[0]],
                [0, 0, OTHER],
                "{word:08x}"
            );
        }
    }
    Ok(())
}
