use crate::alone::{OTHER, first, lay, retires};
use std::test::Fail;

// The words are LLVM's, but for bctar, which it doesn't know; the values are worked out from the manual's text.

/// What stands in LR, and what in TAR, where that isn't the target.
const LR: u64 = 0x1357_9bdf_0246_8ace;

const TAR: u64 = 0x7654_3210_fedc_ba98;

/// A word and its address; CR; the contents of LR, CTR and TAR before it; and the next address, LR and CTR behind it.
struct Row(u32, u32, u32, [u64; 3], [u64; 3]);

/// bc with each BO, CTR 0, 1 and 2, and both values of its bit, to addresses before and behind it.
#[rattlefmt::skip]
static COUNTED: [Row; 192] = [
    Row(0x4003_0020, 0x1000, 0x6d0c_1da0, [LR, 0, TAR], [0x1020, LR, 0xffff_ffff_ffff_ffff]), // bc 0,3,.+32
    Row(0x400a_ffe0, 0x1000, 0xb8a0_d7fc, [LR, 0, TAR], [0x1004, LR, 0xffff_ffff_ffff_ffff]), // bc 0,10,.-32
    Row(0x4011_7ffc, 0x1000, 0x523c_0c4e, [LR, 1, TAR], [0x1004, LR, 0]), // bc 0,17,.+32764
    Row(0x4018_f000, 0x2000, 0x1d69_4acb, [LR, 1, TAR], [0x2004, LR, 0]), // bc 0,24,.-4096
    Row(0x401f_0008, 0x1000, 0xe937_088a, [LR, 2, TAR], [0x1008, LR, 1]), // bc 0,31,.+8
    Row(0x4006_fffc, 0x1000, 0xe286_9973, [LR, 2, TAR], [0x1004, LR, 1]), // bc 0,6,.-4
    Row(0x402d_0020, 0x1000, 0x9589_e13d, [LR, 0, TAR], [0x1020, LR, 0xffff_ffff_ffff_ffff]), // bc 1,13,.+32
    Row(0x4034_ffe0, 0x1000, 0xe2db_eac3, [LR, 0, TAR], [0x1004, LR, 0xffff_ffff_ffff_ffff]), // bc 1,20,.-32
    Row(0x403b_7ffc, 0x1000, 0x9698_dfa8, [LR, 1, TAR], [0x1004, LR, 0]), // bc 1,27,.+32764
    Row(0x4022_f000, 0x2000, 0x71c2_d2b2, [LR, 1, TAR], [0x2004, LR, 0]), // bc 1,2,.-4096
    Row(0x4029_0008, 0x1000, 0x23ab_81c7, [LR, 2, TAR], [0x1008, LR, 1]), // bc 1,9,.+8
    Row(0x4030_fffc, 0x1000, 0xe51_9d46, [LR, 2, TAR], [0x1004, LR, 1]), // bc 1,16,.-4
    Row(0x4057_0020, 0x1000, 0xd527_2c43, [LR, 0, TAR], [0x1004, LR, 0xffff_ffff_ffff_ffff]), // bc 2,23,.+32
    Row(0x405e_ffe0, 0x1000, 0x1cb7_4e2a, [LR, 0, TAR], [0x1004, LR, 0xffff_ffff_ffff_ffff]), // bc 2,30,.-32
    Row(0x4045_7ffc, 0x1000, 0xd25f_ae51, [LR, 1, TAR], [0x8ffc, LR, 0]), // bc 2,5,.+32764
    Row(0x404c_f000, 0x2000, 0x4669_61eb, [LR, 1, TAR], [0x2004, LR, 0]), // bc 2,12,.-4096
    Row(0x4053_0008, 0x1000, 0xd263_c400, [LR, 2, TAR], [0x1004, LR, 1]), // bc 2,19,.+8
    Row(0x405a_fffc, 0x1000, 0x800b_eb2e, [LR, 2, TAR], [0x1004, LR, 1]), // bc 2,26,.-4
    Row(0x4061_0020, 0x1000, 0xbf2c_ecd4, [LR, 0, TAR], [0x1004, LR, 0xffff_ffff_ffff_ffff]), // bc 3,1,.+32
    Row(0x4068_ffe0, 0x1000, 0xf282_5ada, [LR, 0, TAR], [0x1004, LR, 0xffff_ffff_ffff_ffff]), // bc 3,8,.-32
    Row(0x406f_7ffc, 0x1000, 0x3ac0_a741, [LR, 1, TAR], [0x8ffc, LR, 0]), // bc 3,15,.+32764
    Row(0x4076_f000, 0x2000, 0x49f6_fec4, [LR, 1, TAR], [0x2004, LR, 0]), // bc 3,22,.-4096
    Row(0x407d_0008, 0x1000, 0x9048_7b99, [LR, 2, TAR], [0x1004, LR, 1]), // bc 3,29,.+8
    Row(0x4064_fffc, 0x1000, 0x9cb4_22fd, [LR, 2, TAR], [0x1004, LR, 1]), // bc 3,4,.-4
    Row(0x408b_0020, 0x1000, 0x47c8_7b7a, [LR, 0, TAR], [0x1020, LR, 0]), // bc 4,11,.+32
    Row(0x4092_ffe0, 0x1000, 0xf48_3e9d, [LR, 0, TAR], [0x1004, LR, 0]), // bc 4,18,.-32
    Row(0x4099_7ffc, 0x1000, 0xe7d0_888f, [LR, 1, TAR], [0x8ffc, LR, 1]), // bc 4,25,.+32764
    Row(0x4080_f000, 0x2000, 0x86e0_9f56, [LR, 1, TAR], [0x2004, LR, 1]), // bc 4,0,.-4096
    Row(0x4087_0008, 0x1000, 0xbea5_eef9, [LR, 2, TAR], [0x1008, LR, 2]), // bc 4,7,.+8
    Row(0x408e_fffc, 0x1000, 0x3f42_f1a4, [LR, 2, TAR], [0x1004, LR, 2]), // bc 4,14,.-4
    Row(0x40b5_0020, 0x1000, 0x19a7_b83d, [LR, 0, TAR], [0x1020, LR, 0]), // bc 5,21,.+32
    Row(0x40bc_ffe0, 0x1000, 0x7051_bed8, [LR, 0, TAR], [0x1004, LR, 0]), // bc 5,28,.-32
    Row(0x40a3_7ffc, 0x1000, 0xc311_38ff, [LR, 1, TAR], [0x8ffc, LR, 1]), // bc 5,3,.+32764
    Row(0x40aa_f000, 0x2000, 0x2b70_bb1b, [LR, 1, TAR], [0x2004, LR, 1]), // bc 5,10,.-4096
    Row(0x40b1_0008, 0x1000, 0xd59f_38a5, [LR, 2, TAR], [0x1008, LR, 2]), // bc 5,17,.+8
    Row(0x40b8_fffc, 0x1000, 0xf33c_7094, [LR, 2, TAR], [0x1004, LR, 2]), // bc 5,24,.-4
    Row(0x40df_0020, 0x1000, 0x4cc2_577a, [LR, 0, TAR], [0x1020, LR, 0]), // bc 6,31,.+32
    Row(0x40c6_ffe0, 0x1000, 0x1ee5_d336, [LR, 0, TAR], [0x1004, LR, 0]), // bc 6,6,.-32
    Row(0x40cd_7ffc, 0x1000, 0x41b0_ae5b, [LR, 1, TAR], [0x8ffc, LR, 1]), // bc 6,13,.+32764
    Row(0x40d4_f000, 0x2000, 0x56dc_7d40, [LR, 1, TAR], [0x2004, LR, 1]), // bc 6,20,.-4096
    Row(0x40db_0008, 0x1000, 0xa9b4_a82b, [LR, 2, TAR], [0x1008, LR, 2]), // bc 6,27,.+8
    Row(0x40c2_fffc, 0x1000, 0x2ab4_90f3, [LR, 2, TAR], [0x1004, LR, 2]), // bc 6,2,.-4
    Row(0x40e9_0020, 0x1000, 0xae9b_c01f, [LR, 0, TAR], [0x1020, LR, 0]), // bc 7,9,.+32
    Row(0x40f0_ffe0, 0x1000, 0xc0c1_b318, [LR, 0, TAR], [0x1004, LR, 0]), // bc 7,16,.-32
    Row(0x40f7_7ffc, 0x1000, 0x32a0_e0fb, [LR, 1, TAR], [0x8ffc, LR, 1]), // bc 7,23,.+32764
    Row(0x40fe_f000, 0x2000, 0xf16c_bc2a, [LR, 1, TAR], [0x2004, LR, 1]), // bc 7,30,.-4096
    Row(0x40e5_0008, 0x1000, 0xf26b_019c, [LR, 2, TAR], [0x1008, LR, 2]), // bc 7,5,.+8
    Row(0x40ec_fffc, 0x1000, 0x9a58_925c, [LR, 2, TAR], [0x1004, LR, 2]), // bc 7,12,.-4
    Row(0x4113_0020, 0x1000, 0x1d2b_8c29, [LR, 0, TAR], [0x1004, LR, 0xffff_ffff_ffff_ffff]), // bc 8,19,.+32
    Row(0x411a_ffe0, 0x1000, 0x8488_6e60, [LR, 0, TAR], [0xfe0, LR, 0xffff_ffff_ffff_ffff]), // bc 8,26,.-32
    Row(0x4101_7ffc, 0x1000, 0xaafa_bf09, [LR, 1, TAR], [0x1004, LR, 0]), // bc 8,1,.+32764
    Row(0x4108_f000, 0x2000, 0x88a3_63d4, [LR, 1, TAR], [0x2004, LR, 0]), // bc 8,8,.-4096
    Row(0x410f_0008, 0x1000, 0xb174_9b0a, [LR, 2, TAR], [0x1004, LR, 1]), // bc 8,15,.+8
    Row(0x4116_fffc, 0x1000, 0xe878_57d5, [LR, 2, TAR], [0xffc, LR, 1]), // bc 8,22,.-4
    Row(0x413d_0020, 0x1000, 0x2bbf_708a, [LR, 0, TAR], [0x1004, LR, 0xffff_ffff_ffff_ffff]), // bc 9,29,.+32
    Row(0x4124_ffe0, 0x1000, 0x585c_26a3, [LR, 0, TAR], [0xfe0, LR, 0xffff_ffff_ffff_ffff]), // bc 9,4,.-32
    Row(0x412b_7ffc, 0x1000, 0x72c7_6554, [LR, 1, TAR], [0x1004, LR, 0]), // bc 9,11,.+32764
    Row(0x4132_f000, 0x2000, 0xaf19_a0e6, [LR, 1, TAR], [0x2004, LR, 0]), // bc 9,18,.-4096
    Row(0x4139_0008, 0x1000, 0x773a_7bbc, [LR, 2, TAR], [0x1004, LR, 1]), // bc 9,25,.+8
    Row(0x4120_fffc, 0x1000, 0x8c26_db19, [LR, 2, TAR], [0xffc, LR, 1]), // bc 9,0,.-4
    Row(0x4147_0020, 0x1000, 0x2c4d_49a0, [LR, 0, TAR], [0x1004, LR, 0xffff_ffff_ffff_ffff]), // bc 10,7,.+32
    Row(0x414e_ffe0, 0x1000, 0x9db7_86c2, [LR, 0, TAR], [0x1004, LR, 0xffff_ffff_ffff_ffff]), // bc 10,14,.-32
    Row(0x4155_7ffc, 0x1000, 0x851d_68b1, [LR, 1, TAR], [0x1004, LR, 0]), // bc 10,21,.+32764
    Row(0x415c_f000, 0x2000, 0x55e1_530e, [LR, 1, TAR], [0x1000, LR, 0]), // bc 10,28,.-4096
    Row(0x4143_0008, 0x1000, 0x84b6_7beb, [LR, 2, TAR], [0x1004, LR, 1]), // bc 10,3,.+8
    Row(0x414a_fffc, 0x1000, 0x9fb1_fa1f, [LR, 2, TAR], [0x1004, LR, 1]), // bc 10,10,.-4
    Row(0x4171_0020, 0x1000, 0x84da_8c36, [LR, 0, TAR], [0x1004, LR, 0xffff_ffff_ffff_ffff]), // bc 11,17,.+32
    Row(0x4178_ffe0, 0x1000, 0x2c00_24ef, [LR, 0, TAR], [0x1004, LR, 0xffff_ffff_ffff_ffff]), // bc 11,24,.-32
    Row(0x417f_7ffc, 0x1000, 0xb454_e954, [LR, 1, TAR], [0x1004, LR, 0]), // bc 11,31,.+32764
    Row(0x4166_f000, 0x2000, 0x67da_a2d6, [LR, 1, TAR], [0x1000, LR, 0]), // bc 11,6,.-4096
    Row(0x416d_0008, 0x1000, 0xf631_8111, [LR, 2, TAR], [0x1004, LR, 1]), // bc 11,13,.+8
    Row(0x4174_fffc, 0x1000, 0xa305_db8d, [LR, 2, TAR], [0x1004, LR, 1]), // bc 11,20,.-4
    Row(0x419b_0020, 0x1000, 0x7815_30c9, [LR, 0, TAR], [0x1004, LR, 0]), // bc 12,27,.+32
    Row(0x4182_ffe0, 0x1000, 0xfeae_f2bc, [LR, 0, TAR], [0xfe0, LR, 0]), // bc 12,2,.-32
    Row(0x4189_7ffc, 0x1000, 0x4220_7342, [LR, 1, TAR], [0x1004, LR, 1]), // bc 12,9,.+32764
    Row(0x4190_f000, 0x2000, 0xcd93_f5f0, [LR, 1, TAR], [0x1000, LR, 1]), // bc 12,16,.-4096
    Row(0x4197_0008, 0x1000, 0xd39e_c8fe, [LR, 2, TAR], [0x1004, LR, 2]), // bc 12,23,.+8
    Row(0x419e_fffc, 0x1000, 0x3e6_1e73, [LR, 2, TAR], [0xffc, LR, 2]), // bc 12,30,.-4
    Row(0x41a5_0020, 0x1000, 0xb902_a49f, [LR, 0, TAR], [0x1004, LR, 0]), // bc 13,5,.+32
    Row(0x41ac_ffe0, 0x1000, 0x3ff9_e8d7, [LR, 0, TAR], [0xfe0, LR, 0]), // bc 13,12,.-32
    Row(0x41b3_7ffc, 0x1000, 0x72d8_0a0a, [LR, 1, TAR], [0x1004, LR, 1]), // bc 13,19,.+32764
    Row(0x41ba_f000, 0x2000, 0x96d3_d636, [LR, 1, TAR], [0x1000, LR, 1]), // bc 13,26,.-4096
    Row(0x41a1_0008, 0x1000, 0x738_2696, [LR, 2, TAR], [0x1004, LR, 2]), // bc 13,1,.+8
    Row(0x41a8_fffc, 0x1000, 0x2fe3_1d09, [LR, 2, TAR], [0xffc, LR, 2]), // bc 13,8,.-4
    Row(0x41cf_0020, 0x1000, 0x5880_ec0f, [LR, 0, TAR], [0x1004, LR, 0]), // bc 14,15,.+32
    Row(0x41d6_ffe0, 0x1000, 0xf711_8afb, [LR, 0, TAR], [0xfe0, LR, 0]), // bc 14,22,.-32
    Row(0x41dd_7ffc, 0x1000, 0x5017_f49a, [LR, 1, TAR], [0x1004, LR, 1]), // bc 14,29,.+32764
    Row(0x41c4_f000, 0x2000, 0x7a2e_d70b, [LR, 1, TAR], [0x1000, LR, 1]), // bc 14,4,.-4096
    Row(0x41cb_0008, 0x1000, 0x4901_2032, [LR, 2, TAR], [0x1004, LR, 2]), // bc 14,11,.+8
    Row(0x41d2_fffc, 0x1000, 0x9275_3ff2, [LR, 2, TAR], [0xffc, LR, 2]), // bc 14,18,.-4
    Row(0x41f9_0020, 0x1000, 0xde65_4228, [LR, 0, TAR], [0x1004, LR, 0]), // bc 15,25,.+32
    Row(0x41e0_ffe0, 0x1000, 0xd2c3_c3f5, [LR, 0, TAR], [0xfe0, LR, 0]), // bc 15,0,.-32
    Row(0x41e7_7ffc, 0x1000, 0xaef7_1f27, [LR, 1, TAR], [0x1004, LR, 1]), // bc 15,7,.+32764
    Row(0x41ee_f000, 0x2000, 0x3d12_1a07, [LR, 1, TAR], [0x1000, LR, 1]), // bc 15,14,.-4096
    Row(0x41f5_0008, 0x1000, 0x4073_48b8, [LR, 2, TAR], [0x1004, LR, 2]), // bc 15,21,.+8
    Row(0x41fc_fffc, 0x1000, 0x4c1a_0d68, [LR, 2, TAR], [0xffc, LR, 2]), // bc 15,28,.-4
    Row(0x4203_0020, 0x1000, 0x40ff_feb9, [LR, 0, TAR], [0x1020, LR, 0xffff_ffff_ffff_ffff]), // bc 16,3,.+32
    Row(0x420a_ffe0, 0x1000, 0xeb76_e8a1, [LR, 0, TAR], [0xfe0, LR, 0xffff_ffff_ffff_ffff]), // bc 16,10,.-32
    Row(0x4211_7ffc, 0x1000, 0x15aa_b4f7, [LR, 1, TAR], [0x1004, LR, 0]), // bc 16,17,.+32764
    Row(0x4218_f000, 0x2000, 0x49df_6ee2, [LR, 1, TAR], [0x2004, LR, 0]), // bc 16,24,.-4096
    Row(0x421f_0008, 0x1000, 0xe5e1_8028, [LR, 2, TAR], [0x1008, LR, 1]), // bc 16,31,.+8
    Row(0x4206_fffc, 0x1000, 0x372c_3dc9, [LR, 2, TAR], [0xffc, LR, 1]), // bc 16,6,.-4
    Row(0x422d_0020, 0x1000, 0x8df9_22e7, [LR, 0, TAR], [0x1020, LR, 0xffff_ffff_ffff_ffff]), // bc 17,13,.+32
    Row(0x4234_ffe0, 0x1000, 0xf7f5_ef8e, [LR, 0, TAR], [0xfe0, LR, 0xffff_ffff_ffff_ffff]), // bc 17,20,.-32
    Row(0x423b_7ffc, 0x1000, 0x444e_aea4, [LR, 1, TAR], [0x1004, LR, 0]), // bc 17,27,.+32764
    Row(0x4222_f000, 0x2000, 0xa182_b09c, [LR, 1, TAR], [0x2004, LR, 0]), // bc 17,2,.-4096
    Row(0x4229_0008, 0x1000, 0xb58c_ef75, [LR, 2, TAR], [0x1008, LR, 1]), // bc 17,9,.+8
    Row(0x4230_fffc, 0x1000, 0x9fd7_fca6, [LR, 2, TAR], [0xffc, LR, 1]), // bc 17,16,.-4
    Row(0x4257_0020, 0x1000, 0xba7e_ba1c, [LR, 0, TAR], [0x1004, LR, 0xffff_ffff_ffff_ffff]), // bc 18,23,.+32
    Row(0x425e_ffe0, 0x1000, 0x47a2_876e, [LR, 0, TAR], [0x1004, LR, 0xffff_ffff_ffff_ffff]), // bc 18,30,.-32
    Row(0x4245_7ffc, 0x1000, 0xe0_610d, [LR, 1, TAR], [0x8ffc, LR, 0]), // bc 18,5,.+32764
    Row(0x424c_f000, 0x2000, 0xd3ba_6304, [LR, 1, TAR], [0x1000, LR, 0]), // bc 18,12,.-4096
    Row(0x4253_0008, 0x1000, 0xd775_cf63, [LR, 2, TAR], [0x1004, LR, 1]), // bc 18,19,.+8
    Row(0x425a_fffc, 0x1000, 0x8351_db72, [LR, 2, TAR], [0x1004, LR, 1]), // bc 18,26,.-4
    Row(0x4261_0020, 0x1000, 0xbd79_0bc1, [LR, 0, TAR], [0x1004, LR, 0xffff_ffff_ffff_ffff]), // bc 19,1,.+32
    Row(0x4268_ffe0, 0x1000, 0xd580_af6a, [LR, 0, TAR], [0x1004, LR, 0xffff_ffff_ffff_ffff]), // bc 19,8,.-32
    Row(0x426f_7ffc, 0x1000, 0xbbec_b5c3, [LR, 1, TAR], [0x8ffc, LR, 0]), // bc 19,15,.+32764
    Row(0x4276_f000, 0x2000, 0xcf91_6734, [LR, 1, TAR], [0x1000, LR, 0]), // bc 19,22,.-4096
    Row(0x427d_0008, 0x1000, 0x1856_b280, [LR, 2, TAR], [0x1004, LR, 1]), // bc 19,29,.+8
    Row(0x4264_fffc, 0x1000, 0xfa67_4295, [LR, 2, TAR], [0x1004, LR, 1]), // bc 19,4,.-4
    Row(0x428b_0020, 0x1000, 0xc341_e192, [LR, 0, TAR], [0x1020, LR, 0]), // bc 20,11,.+32
    Row(0x4292_ffe0, 0x1000, 0x19d4_badb, [LR, 0, TAR], [0xfe0, LR, 0]), // bc 20,18,.-32
    Row(0x4299_7ffc, 0x1000, 0xd798_46a3, [LR, 1, TAR], [0x8ffc, LR, 1]), // bc 20,25,.+32764
    Row(0x4280_f000, 0x2000, 0xfd6d_cb3c, [LR, 1, TAR], [0x1000, LR, 1]), // bc 20,0,.-4096
    Row(0x4287_0008, 0x1000, 0x8018_52fa, [LR, 2, TAR], [0x1008, LR, 2]), // bc 20,7,.+8
    Row(0x428e_fffc, 0x1000, 0x502f_6550, [LR, 2, TAR], [0xffc, LR, 2]), // bc 20,14,.-4
    Row(0x42b5_0020, 0x1000, 0x90f2_9187, [LR, 0, TAR], [0x1020, LR, 0]), // bc 21,21,.+32
    Row(0x42bc_ffe0, 0x1000, 0x505c_fbde, [LR, 0, TAR], [0xfe0, LR, 0]), // bc 21,28,.-32
    Row(0x42a3_7ffc, 0x1000, 0x6872_858c, [LR, 1, TAR], [0x8ffc, LR, 1]), // bc 21,3,.+32764
    Row(0x42aa_f000, 0x2000, 0xcf2c_cb78, [LR, 1, TAR], [0x1000, LR, 1]), // bc 21,10,.-4096
    Row(0x42b1_0008, 0x1000, 0x91aa_a6cf, [LR, 2, TAR], [0x1008, LR, 2]), // bc 21,17,.+8
    Row(0x42b8_fffc, 0x1000, 0x82be_fa89, [LR, 2, TAR], [0xffc, LR, 2]), // bc 21,24,.-4
    Row(0x42df_0020, 0x1000, 0xa58f_402e, [LR, 0, TAR], [0x1020, LR, 0]), // bc 22,31,.+32
    Row(0x42c6_ffe0, 0x1000, 0xf625_4f65, [LR, 0, TAR], [0xfe0, LR, 0]), // bc 22,6,.-32
    Row(0x42cd_7ffc, 0x1000, 0xb48_517b, [LR, 1, TAR], [0x8ffc, LR, 1]), // bc 22,13,.+32764
    Row(0x42d4_f000, 0x2000, 0xd4e_ee57, [LR, 1, TAR], [0x1000, LR, 1]), // bc 22,20,.-4096
    Row(0x42db_0008, 0x1000, 0x75d7_cca6, [LR, 2, TAR], [0x1008, LR, 2]), // bc 22,27,.+8
    Row(0x42c2_fffc, 0x1000, 0xa7a2_b3de, [LR, 2, TAR], [0xffc, LR, 2]), // bc 22,2,.-4
    Row(0x42e9_0020, 0x1000, 0x8607_2600, [LR, 0, TAR], [0x1020, LR, 0]), // bc 23,9,.+32
    Row(0x42f0_ffe0, 0x1000, 0xd881_ea16, [LR, 0, TAR], [0xfe0, LR, 0]), // bc 23,16,.-32
    Row(0x42f7_7ffc, 0x1000, 0xbd17_84a9, [LR, 1, TAR], [0x8ffc, LR, 1]), // bc 23,23,.+32764
    Row(0x42fe_f000, 0x2000, 0x7985_f8df, [LR, 1, TAR], [0x1000, LR, 1]), // bc 23,30,.-4096
    Row(0x42e5_0008, 0x1000, 0xe8cb_803a, [LR, 2, TAR], [0x1008, LR, 2]), // bc 23,5,.+8
    Row(0x42ec_fffc, 0x1000, 0xf89b_e69f, [LR, 2, TAR], [0xffc, LR, 2]), // bc 23,12,.-4
    Row(0x4313_0020, 0x1000, 0xf16a_439a, [LR, 0, TAR], [0x1020, LR, 0xffff_ffff_ffff_ffff]), // bc 24,19,.+32
    Row(0x431a_ffe0, 0x1000, 0x1a25_49ac, [LR, 0, TAR], [0xfe0, LR, 0xffff_ffff_ffff_ffff]), // bc 24,26,.-32
    Row(0x4301_7ffc, 0x1000, 0xae7c_abc6, [LR, 1, TAR], [0x1004, LR, 0]), // bc 24,1,.+32764
    Row(0x4308_f000, 0x2000, 0x8b82_e29c, [LR, 1, TAR], [0x2004, LR, 0]), // bc 24,8,.-4096
    Row(0x430f_0008, 0x1000, 0x6dc0_ac89, [LR, 2, TAR], [0x1008, LR, 1]), // bc 24,15,.+8
    Row(0x4316_fffc, 0x1000, 0x40a4_5ed9, [LR, 2, TAR], [0xffc, LR, 1]), // bc 24,22,.-4
    Row(0x433d_0020, 0x1000, 0xb607_8552, [LR, 0, TAR], [0x1020, LR, 0xffff_ffff_ffff_ffff]), // bc 25,29,.+32
    Row(0x4324_ffe0, 0x1000, 0x7d4c_b54e, [LR, 0, TAR], [0xfe0, LR, 0xffff_ffff_ffff_ffff]), // bc 25,4,.-32
    Row(0x432b_7ffc, 0x1000, 0xfee2_a036, [LR, 1, TAR], [0x1004, LR, 0]), // bc 25,11,.+32764
    Row(0x4332_f000, 0x2000, 0x7ab6_bb6d, [LR, 1, TAR], [0x2004, LR, 0]), // bc 25,18,.-4096
    Row(0x4339_0008, 0x1000, 0x281d_e0bb, [LR, 2, TAR], [0x1008, LR, 1]), // bc 25,25,.+8
    Row(0x4320_fffc, 0x1000, 0xfc07_6045, [LR, 2, TAR], [0xffc, LR, 1]), // bc 25,0,.-4
    Row(0x4347_0020, 0x1000, 0xccee_a6f4, [LR, 0, TAR], [0x1004, LR, 0xffff_ffff_ffff_ffff]), // bc 26,7,.+32
    Row(0x434e_ffe0, 0x1000, 0xc49b_09f3, [LR, 0, TAR], [0x1004, LR, 0xffff_ffff_ffff_ffff]), // bc 26,14,.-32
    Row(0x4355_7ffc, 0x1000, 0x649d_1875, [LR, 1, TAR], [0x8ffc, LR, 0]), // bc 26,21,.+32764
    Row(0x435c_f000, 0x2000, 0x90d1_d1fb, [LR, 1, TAR], [0x1000, LR, 0]), // bc 26,28,.-4096
    Row(0x4343_0008, 0x1000, 0x4eec_5997, [LR, 2, TAR], [0x1004, LR, 1]), // bc 26,3,.+8
    Row(0x434a_fffc, 0x1000, 0x87bc_980c, [LR, 2, TAR], [0x1004, LR, 1]), // bc 26,10,.-4
    Row(0x4371_0020, 0x1000, 0x16f4_004b, [LR, 0, TAR], [0x1004, LR, 0xffff_ffff_ffff_ffff]), // bc 27,17,.+32
    Row(0x4378_ffe0, 0x1000, 0x8ddf_4684, [LR, 0, TAR], [0x1004, LR, 0xffff_ffff_ffff_ffff]), // bc 27,24,.-32
    Row(0x437f_7ffc, 0x1000, 0xdf0f_4ad8, [LR, 1, TAR], [0x8ffc, LR, 0]), // bc 27,31,.+32764
    Row(0x4366_f000, 0x2000, 0xbbf9_6ee5, [LR, 1, TAR], [0x1000, LR, 0]), // bc 27,6,.-4096
    Row(0x436d_0008, 0x1000, 0xdbcb_20b3, [LR, 2, TAR], [0x1004, LR, 1]), // bc 27,13,.+8
    Row(0x4374_fffc, 0x1000, 0x4f62_1864, [LR, 2, TAR], [0x1004, LR, 1]), // bc 27,20,.-4
    Row(0x439b_0020, 0x1000, 0xa77c_3b02, [LR, 0, TAR], [0x1020, LR, 0]), // bc 28,27,.+32
    Row(0x4382_ffe0, 0x1000, 0xfb05_54dd, [LR, 0, TAR], [0xfe0, LR, 0]), // bc 28,2,.-32
    Row(0x4389_7ffc, 0x1000, 0xf1a5_2edc, [LR, 1, TAR], [0x8ffc, LR, 1]), // bc 28,9,.+32764
    Row(0x4390_f000, 0x2000, 0x3dca_fb70, [LR, 1, TAR], [0x1000, LR, 1]), // bc 28,16,.-4096
    Row(0x4397_0008, 0x1000, 0xfbf5_eaf5, [LR, 2, TAR], [0x1008, LR, 2]), // bc 28,23,.+8
    Row(0x439e_fffc, 0x1000, 0x360a_e206, [LR, 2, TAR], [0xffc, LR, 2]), // bc 28,30,.-4
    Row(0x43a5_0020, 0x1000, 0x9319_2a8b, [LR, 0, TAR], [0x1020, LR, 0]), // bc 29,5,.+32
    Row(0x43ac_ffe0, 0x1000, 0xbf3e_0f72, [LR, 0, TAR], [0xfe0, LR, 0]), // bc 29,12,.-32
    Row(0x43b3_7ffc, 0x1000, 0xf0fe_02ec, [LR, 1, TAR], [0x8ffc, LR, 1]), // bc 29,19,.+32764
    Row(0x43ba_f000, 0x2000, 0xca1d_e478, [LR, 1, TAR], [0x1000, LR, 1]), // bc 29,26,.-4096
    Row(0x43a1_0008, 0x1000, 0xb0d2_5f76, [LR, 2, TAR], [0x1008, LR, 2]), // bc 29,1,.+8
    Row(0x43a8_fffc, 0x1000, 0x51ca_ee44, [LR, 2, TAR], [0xffc, LR, 2]), // bc 29,8,.-4
    Row(0x43cf_0020, 0x1000, 0x4e5c_3601, [LR, 0, TAR], [0x1020, LR, 0]), // bc 30,15,.+32
    Row(0x43d6_ffe0, 0x1000, 0x2e25_7ba5, [LR, 0, TAR], [0xfe0, LR, 0]), // bc 30,22,.-32
    Row(0x43dd_7ffc, 0x1000, 0x1055_fea2, [LR, 1, TAR], [0x8ffc, LR, 1]), // bc 30,29,.+32764
    Row(0x43c4_f000, 0x2000, 0x2e9b_70e3, [LR, 1, TAR], [0x1000, LR, 1]), // bc 30,4,.-4096
    Row(0x43cb_0008, 0x1000, 0xc96f_de01, [LR, 2, TAR], [0x1008, LR, 2]), // bc 30,11,.+8
    Row(0x43d2_fffc, 0x1000, 0x2fbd_fb78, [LR, 2, TAR], [0xffc, LR, 2]), // bc 30,18,.-4
    Row(0x43f9_0020, 0x1000, 0xad68_028d, [LR, 0, TAR], [0x1020, LR, 0]), // bc 31,25,.+32
    Row(0x43e0_ffe0, 0x1000, 0x8e2e_8133, [LR, 0, TAR], [0xfe0, LR, 0]), // bc 31,0,.-32
    Row(0x43e7_7ffc, 0x1000, 0xf0eb_949c, [LR, 1, TAR], [0x8ffc, LR, 1]), // bc 31,7,.+32764
    Row(0x43ee_f000, 0x2000, 0xcd6e_200a, [LR, 1, TAR], [0x1000, LR, 1]), // bc 31,14,.-4096
    Row(0x43f5_0008, 0x1000, 0x557f_dae4, [LR, 2, TAR], [0x1008, LR, 2]), // bc 31,21,.+8
    Row(0x43fc_fffc, 0x1000, 0x4f30_799a, [LR, 2, TAR], [0xffc, LR, 2]), // bc 31,28,.-4
];

/// Branches with LK, taken and not taken, and those to an address itself.
#[rattlefmt::skip]
static LINKED: [Row; 82] = [
    Row(0x4001_0041, 0x1000, 0x7f9d_34d9, [LR, 1, TAR], [0x1004, 0x1004, 0]), // bcl 0,1,.+64
    Row(0x4006_ffc1, 0x40, 0xb1e3_6e3c, [LR, 2, TAR], [0, 0x44, 1]), // bcl 0,6,.-64
    Row(0x402b_0001, 0xff_fff8, 0xddab_59ca, [LR, 1, TAR], [0xff_fffc, 0xff_fffc, 0]), // bcl 1,11,.+0
    Row(0x4030_7ffd, 0x1000, 0xfd8f_acd5, [LR, 2, TAR], [0x1004, 0x1004, 1]), // bcl 1,16,.+32764
    Row(0x4055_0041, 0x40, 0x5a2f_3752, [LR, 1, TAR], [0x44, 0x44, 0]), // bcl 2,21,.+64
    Row(0x405a_ffc1, 0xff_fff8, 0xc252_608d, [LR, 2, TAR], [0xff_fffc, 0xff_fffc, 1]), // bcl 2,26,.-64
    Row(0x407f_0001, 0x1000, 0x9c0c_9982, [LR, 1, TAR], [0x1000, 0x1004, 0]), // bcl 3,31,.+0
    Row(0x4064_7ffd, 0x40, 0x4e8d_87c6, [LR, 2, TAR], [0x44, 0x44, 1]), // bcl 3,4,.+32764
    Row(0x4089_0041, 0xff_fff8, 0x4659_0ec7, [LR, 1, TAR], [0xff_fffc, 0xff_fffc, 1]), // bcl 4,9,.+64
    Row(0x408e_ffc1, 0x1000, 0x3a2d_0bd0, [LR, 2, TAR], [0xfc0, 0x1004, 2]), // bcl 4,14,.-64
    Row(0x40b3_0001, 0x40, 0x1081_08f4, [LR, 1, TAR], [0x40, 0x44, 1]), // bcl 5,19,.+0
    Row(0x40b8_7ffd, 0xff_fff8, 0x8d18_c5bc, [LR, 2, TAR], [0xff_fffc, 0xff_fffc, 2]), // bcl 5,24,.+32764
    Row(0x40dd_0041, 0x1000, 0xe6b1_703c, [LR, 1, TAR], [0x1004, 0x1004, 1]), // bcl 6,29,.+64
    Row(0x40c2_ffc1, 0x40, 0x895f_aabf, [LR, 2, TAR], [0, 0x44, 2]), // bcl 6,2,.-64
    Row(0x40e7_0001, 0xff_fff8, 0xc42c_e75e, [LR, 1, TAR], [0xff_fff8, 0xff_fffc, 1]), // bcl 7,7,.+0
    Row(0x40ec_7ffd, 0x1000, 0x5ef_dfc9, [LR, 2, TAR], [0x1004, 0x1004, 2]), // bcl 7,12,.+32764
    Row(0x4111_0041, 0x40, 0x8e9e_ca0e, [LR, 1, TAR], [0x44, 0x44, 0]), // bcl 8,17,.+64
    Row(0x4116_ffc1, 0xff_fff8, 0xfa7c_65c2, [LR, 2, TAR], [0xff_fffc, 0xff_fffc, 1]), // bcl 8,22,.-64
    Row(0x413b_0001, 0x1000, 0xf9e_2861, [LR, 1, TAR], [0x1004, 0x1004, 0]), // bcl 9,27,.+0
    Row(0x4120_7ffd, 0x40, 0xacdc_3053, [LR, 2, TAR], [0x803c, 0x44, 1]), // bcl 9,0,.+32764
    Row(0x4145_0041, 0xff_fff8, 0x2f47_559b, [LR, 1, TAR], [0x100_0038, 0xff_fffc, 0]), // bcl 10,5,.+64
    Row(0x414a_ffc1, 0x1000, 0x86d6_2248, [LR, 2, TAR], [0x1004, 0x1004, 1]), // bcl 10,10,.-64
    Row(0x416f_0001, 0x40, 0xce8_ba0c, [LR, 1, TAR], [0x44, 0x44, 0]), // bcl 11,15,.+0
    Row(0x4174_7ffd, 0xff_fff8, 0xaae5_0f93, [LR, 2, TAR], [0xff_fffc, 0xff_fffc, 1]), // bcl 11,20,.+32764
    Row(0x4199_0041, 0x1000, 0x131b_cad1, [LR, 1, TAR], [0x1040, 0x1004, 1]), // bcl 12,25,.+64
    Row(0x419e_ffc1, 0x40, 0xcc4f_b514, [LR, 2, TAR], [0x44, 0x44, 2]), // bcl 12,30,.-64
    Row(0x41a3_0001, 0xff_fff8, 0x8048_edbd, [LR, 1, TAR], [0xff_fffc, 0xff_fffc, 1]), // bcl 13,3,.+0
    Row(0x41a8_7ffd, 0x1000, 0x67c5_b1d2, [LR, 2, TAR], [0x8ffc, 0x1004, 2]), // bcl 13,8,.+32764
    Row(0x41cd_0041, 0x40, 0x3ee5_7996, [LR, 1, TAR], [0x80, 0x44, 1]), // bcl 14,13,.+64
    Row(0x41d2_ffc1, 0xff_fff8, 0x60de_dae1, [LR, 2, TAR], [0xff_fffc, 0xff_fffc, 2]), // bcl 14,18,.-64
    Row(0x41f7_0001, 0x1000, 0xb52b_007f, [LR, 1, TAR], [0x1004, 0x1004, 1]), // bcl 15,23,.+0
    Row(0x41fc_7ffd, 0x40, 0xc2d5_d7ae, [LR, 2, TAR], [0x803c, 0x44, 2]), // bcl 15,28,.+32764
    Row(0x4201_0041, 0xff_fff8, 0x4f49_c862, [LR, 1, TAR], [0xff_fffc, 0xff_fffc, 0]), // bcl 16,1,.+64
    Row(0x4206_ffc1, 0x1000, 0x70cc_f9b8, [LR, 2, TAR], [0xfc0, 0x1004, 1]), // bcl 16,6,.-64
    Row(0x422b_0001, 0x40, 0x9e65_75a4, [LR, 1, TAR], [0x44, 0x44, 0]), // bcl 17,11,.+0
    Row(0x4230_7ffd, 0xff_fff8, 0xcec7_b82c, [LR, 2, TAR], [0x100_7ff4, 0xff_fffc, 1]), // bcl 17,16,.+32764
    Row(0x4255_0041, 0x1000, 0xa0f3_b7ca, [LR, 1, TAR], [0x1040, 0x1004, 0]), // bcl 18,21,.+64
    Row(0x425a_ffc1, 0x40, 0xfd35_66ce, [LR, 2, TAR], [0x44, 0x44, 1]), // bcl 18,26,.-64
    Row(0x427f_0001, 0xff_fff8, 0xcf3c_19b2, [LR, 1, TAR], [0xff_fff8, 0xff_fffc, 0]), // bcl 19,31,.+0
    Row(0x4264_7ffd, 0x1000, 0x3cdc_c293, [LR, 2, TAR], [0x1004, 0x1004, 1]), // bcl 19,4,.+32764
    Row(0x4289_0041, 0x40, 0x1b51_75a4, [LR, 1, TAR], [0x80, 0x44, 1]), // bcl 20,9,.+64
    Row(0x428e_ffc1, 0xff_fff8, 0x3d28_1c9a, [LR, 2, TAR], [0xff_ffb8, 0xff_fffc, 2]), // bcl 20,14,.-64
    Row(0x42b3_0001, 0x1000, 0xe2b2_8bb9, [LR, 1, TAR], [0x1000, 0x1004, 1]), // bcl 21,19,.+0
    Row(0x42b8_7ffd, 0x40, 0x1bbf_e7fd, [LR, 2, TAR], [0x803c, 0x44, 2]), // bcl 21,24,.+32764
    Row(0x42dd_0041, 0xff_fff8, 0xf974_715e, [LR, 1, TAR], [0x100_0038, 0xff_fffc, 1]), // bcl 22,29,.+64
    Row(0x42c2_ffc1, 0x1000, 0x9b45_4aa7, [LR, 2, TAR], [0xfc0, 0x1004, 2]), // bcl 22,2,.-64
    Row(0x42e7_0001, 0x40, 0x4099_8d53, [LR, 1, TAR], [0x40, 0x44, 1]), // bcl 23,7,.+0
    Row(0x42ec_7ffd, 0xff_fff8, 0xecdc_1327, [LR, 2, TAR], [0x100_7ff4, 0xff_fffc, 2]), // bcl 23,12,.+32764
    Row(0x4311_0041, 0x1000, 0x618f_c86b, [LR, 1, TAR], [0x1004, 0x1004, 0]), // bcl 24,17,.+64
    Row(0x4316_ffc1, 0x40, 0x370d_f83d, [LR, 2, TAR], [0, 0x44, 1]), // bcl 24,22,.-64
    Row(0x433b_0001, 0xff_fff8, 0xc0f8_a525, [LR, 1, TAR], [0xff_fffc, 0xff_fffc, 0]), // bcl 25,27,.+0
    Row(0x4320_7ffd, 0x1000, 0xf09d_338e, [LR, 2, TAR], [0x8ffc, 0x1004, 1]), // bcl 25,0,.+32764
    Row(0x4345_0041, 0x40, 0x2e17_3dc1, [LR, 1, TAR], [0x80, 0x44, 0]), // bcl 26,5,.+64
    Row(0x434a_ffc1, 0xff_fff8, 0xdc88_ef86, [LR, 2, TAR], [0xff_fffc, 0xff_fffc, 1]), // bcl 26,10,.-64
    Row(0x436f_0001, 0x1000, 0x5ec6_6e0b, [LR, 1, TAR], [0x1000, 0x1004, 0]), // bcl 27,15,.+0
    Row(0x4374_7ffd, 0x40, 0xe610_7d45, [LR, 2, TAR], [0x44, 0x44, 1]), // bcl 27,20,.+32764
    Row(0x4399_0041, 0xff_fff8, 0x39c0_745b, [LR, 1, TAR], [0x100_0038, 0xff_fffc, 1]), // bcl 28,25,.+64
    Row(0x439e_ffc1, 0x1000, 0x1b57_7874, [LR, 2, TAR], [0xfc0, 0x1004, 2]), // bcl 28,30,.-64
    Row(0x43a3_0001, 0x40, 0xc761_089b, [LR, 1, TAR], [0x40, 0x44, 1]), // bcl 29,3,.+0
    Row(0x43a8_7ffd, 0xff_fff8, 0xe9c_df98, [LR, 2, TAR], [0x100_7ff4, 0xff_fffc, 2]), // bcl 29,8,.+32764
    Row(0x43cd_0041, 0x1000, 0xae07_8cc8, [LR, 1, TAR], [0x1040, 0x1004, 1]), // bcl 30,13,.+64
    Row(0x43d2_ffc1, 0x40, 0xc6eb_9a56, [LR, 2, TAR], [0, 0x44, 2]), // bcl 30,18,.-64
    Row(0x43f7_0001, 0xff_fff8, 0xd64b_9260, [LR, 1, TAR], [0xff_fff8, 0xff_fffc, 1]), // bcl 31,23,.+0
    Row(0x43fc_7ffd, 0x1000, 0x5bf2_e26d, [LR, 2, TAR], [0x8ffc, 0x1004, 2]), // bcl 31,28,.+32764
    Row(0x4280_7ffe, 0x1000, 0, [LR, 1, TAR], [0x7ffc, LR, 1]), // bca 20,0,0x7ffc
    Row(0x4280_8002, 0x1000, 0, [LR, 1, TAR], [0xffff_ffff_ffff_8000, LR, 1]), // bca 20,0,0xffffffffffff8000
    Row(0x419f_ffff, 0x1000, 1, [LR, 1, TAR], [0xffff_ffff_ffff_fffc, 0x1004, 1]), // bcla 12,31,0xfffffffffffffffc
    Row(0x419f_0103, 0x1000, 0xffff_fffe, [LR, 1, TAR], [0x1004, 0x1004, 1]), // bcla 12,31,0x100
    Row(0x409e_0003, 0x1000, 1, [LR, 1, TAR], [0, 0x1004, 1]), // bcla 4,30,0x0
    Row(0x4200_2002, 0x1000, 0, [LR, 1, TAR], [0x1004, LR, 0]), // bca 16,0,0x2000
    Row(0x4240_2003, 0x1000, 0, [LR, 1, TAR], [0x2000, 0x1004, 0]), // bcla 18,0,0x2000
    Row(0x4800_0009, 0, 0x1234_5678, [LR, 1, TAR], [8, 4, 1]), // bl .+8
    Row(0x4bff_fff9, 0, 0x1234_5678, [LR, 1, TAR], [0xffff_ffff_ffff_fff8, 4, 1]), // bl .-8
    Row(0x4800_0001, 0x1000, 0x1234_5678, [LR, 1, TAR], [0x1000, 0x1004, 1]), // bl .+0
    Row(0x49ff_fffd, 0x1000, 0x1234_5678, [LR, 1, TAR], [0x200_0ffc, 0x1004, 1]), // bl .+33554428
    Row(0x4a00_0001, 0x1000, 0x1234_5678, [LR, 1, TAR], [0xffff_ffff_fe00_1000, 0x1004, 1]), // bl .-33554432
    Row(0x4bff_ffff, 0x1000, 0x1234_5678, [LR, 1, TAR], [0xffff_ffff_ffff_fffc, 0x1004, 1]), // bla 0xfffffffffffffffc
    Row(0x49ff_ffff, 0x1000, 0x1234_5678, [LR, 1, TAR], [0x1ff_fffc, 0x1004, 1]), // bla 0x1fffffc
    Row(0x4a00_0003, 0xff_fffc, 0x1234_5678, [LR, 1, TAR], [0xffff_ffff_fe00_0000, 0x100_0000, 1]), // bla 0xfffffffffe000000
    Row(0x4800_0100, 0x1000, 0x1234_5678, [LR, 1, TAR], [0x1100, LR, 1]), // b .+256
    Row(0x4800_0102, 0x1000, 0x1234_5678, [LR, 1, TAR], [0x100, LR, 1]), // ba 0x100
    Row(0x4bff_f000, 0x1000, 0x1234_5678, [LR, 1, TAR], [0, LR, 1]), // b .-4096
];

/// Branches to LR, TAR and CTR, with each BO and both values of its bit, and with low bits in the register.
#[rattlefmt::skip]
static BY_REGISTER: [Row; 194] = [
    Row(0x4c02_0020, 0x1000, 0x15fc_db54, [0x5550, 1, TAR], [0x1004, 0x5550, 0]), // bclr 0,2,0
    Row(0x4c0d_0821, 0x1000, 0xc660_37ca, [0x5551, 2, TAR], [0x5550, 0x1004, 1]), // bclrl 0,13,1
    Row(0x4c18_1020, 0x1000, 0x7ca2_c3ad, [0x240a, 2, TAR], [0x1004, 0x240a, 1]), // bclr 0,24,2
    Row(0x4c23_1820, 0x1000, 0x400_05ec, [0x5553, 1, TAR], [0x1004, 0x5553, 0]), // bclr 1,3,3
    Row(0x4c2e_0021, 0x1000, 0x2455_1ddf, [0xffff_ffff_ffff_ffff, 2, TAR], [0xffff_ffff_ffff_fffc, 0x1004, 1]), // bclrl 1,14,0
    Row(0x4c39_0820, 0x1000, 0x96a9_23fb, [0x2415, 1, TAR], [0x1004, 0x2415, 0]), // bclr 1,25,1
    Row(0x4c44_1020, 0x1000, 0xc498_749e, [3, 1, TAR], [0, 3, 0]), // bclr 2,4,2
    Row(0x4c4f_1821, 0x1000, 0x59e8_7be1, [0x1_0000_0000, 2, TAR], [0x1004, 0x1004, 1]), // bclrl 2,15,3
    Row(0x4c5a_0020, 0x1000, 0x92dc_61ea, [0x2420, 2, TAR], [0x1004, 0x2420, 1]), // bclr 2,26,0
    Row(0x4c65_0820, 0x1000, 0x220b_3480, [0x5551, 1, TAR], [0x5550, 0x5551, 0]), // bclr 3,5,1
    Row(0x4c70_1021, 0x1000, 0xa6d6_1b3d, [0x5552, 2, TAR], [0x1004, 0x1004, 1]), // bclrl 3,16,2
    Row(0x4c7b_1820, 0x1000, 0x61cd_8c70, [0x242f, 1, TAR], [0x1004, 0x242f, 0]), // bclr 3,27,3
    Row(0x4c86_0020, 0x1000, 0x85fe_1a50, [0xffff_ffff_ffff_ffff, 1, TAR], [0xffff_ffff_ffff_fffc, 0xffff_ffff_ffff_ffff, 1]), // bclr 4,6,0
    Row(0x4c91_0821, 0x1000, 0xc731_72a9, [0x8000_0000_0000_0001, 2, TAR], [0x1004, 0x1004, 2]), // bclrl 4,17,1
    Row(0x4cbc_1021, 0x1000, 0x941c_6d46, [0x243a, 2, TAR], [0x2438, 0x1004, 2]), // bclrl 5,28,2
    Row(0x4ca7_1820, 0x1000, 0x9169_08be, [0x1_0000_0000, 1, TAR], [0x1004, 0x1_0000_0000, 1]), // bclr 5,7,3
    Row(0x4cd2_0020, 0x1000, 0x1a78_1c82, [0x5550, 1, TAR], [0x5550, 0x5550, 1]), // bclr 6,18,0
    Row(0x4cdd_0821, 0x1000, 0xf79a_1ca4, [0x2445, 2, TAR], [0x1004, 0x1004, 2]), // bclrl 6,29,1
    Row(0x4ce8_1021, 0x1000, 0x657c_71ad, [0x5552, 2, TAR], [0x5550, 0x1004, 2]), // bclrl 7,8,2
    Row(0x4cf3_1820, 0x1000, 0x3019_366a, [0x5553, 1, TAR], [0x1004, 0x5553, 1]), // bclr 7,19,3
    Row(0x4d1e_0020, 0x1000, 0x22aa_ab91, [0x2450, 1, TAR], [0x1004, 0x2450, 0]), // bclr 8,30,0
    Row(0x4d09_0821, 0x1000, 0x1347_f3a2, [0x8000_0000_0000_0001, 1, TAR], [0x1004, 0x1004, 0]), // bclrl 8,9,1
    Row(0x4d14_1020, 0x1000, 0x891_7f03, [3, 2, TAR], [0, 3, 1]), // bclr 8,20,2
    Row(0x4d3f_1820, 0x1000, 0x5f7d_9e9a, [0x245f, 2, TAR], [0x1004, 0x245f, 1]), // bclr 9,31,3
    Row(0x4d2a_0021, 0x1000, 0x653e_a3c1, [0x5550, 1, TAR], [0x1004, 0x1004, 0]), // bclrl 9,10,0
    Row(0x4d35_0820, 0x1000, 0xa7ac_fc16, [0x5551, 2, TAR], [0x5550, 0x5551, 1]), // bclr 9,21,1
    Row(0x4d40_1020, 0x1000, 0xefe_e1ba, [0x246a, 1, TAR], [0x1004, 0x246a, 0]), // bclr 10,0,2
    Row(0x4d4b_1821, 0x1000, 0x6f38_d2a3, [0x5553, 1, TAR], [0x5550, 0x1004, 0]), // bclrl 10,11,3
    Row(0x4d56_0020, 0x1000, 0x97f1_1be9, [0xffff_ffff_ffff_ffff, 2, TAR], [0x1004, 0xffff_ffff_ffff_ffff, 1]), // bclr 10,22,0
    Row(0x4d61_0820, 0x1000, 0xb953_f6d1, [0x2475, 2, TAR], [0x1004, 0x2475, 1]), // bclr 11,1,1
    Row(0x4d6c_1021, 0x1000, 0x4c2f_7cc9, [3, 1, TAR], [0, 0x1004, 0]), // bclrl 11,12,2
    Row(0x4d77_1820, 0x1000, 0xe54e_a971, [0x1_0000_0000, 2, TAR], [0x1004, 0x1_0000_0000, 1]), // bclr 11,23,3
    Row(0x4d82_0020, 0x1000, 0x40e8_a7fe, [0x2480, 1, TAR], [0x1004, 0x2480, 1]), // bclr 12,2,0
    Row(0x4d8d_0821, 0x1000, 0x3f55_4083, [0x5551, 2, TAR], [0x5550, 0x1004, 2]), // bclrl 12,13,1
    Row(0x4db8_1021, 0x1000, 0x95b9_351d, [0x5552, 2, TAR], [0x1004, 0x1004, 2]), // bclrl 13,24,2
    Row(0x4da3_1820, 0x1000, 0xb84a_9c95, [0x248f, 1, TAR], [0x248c, 0x248f, 1]), // bclr 13,3,3
    Row(0x4dce_0020, 0x1000, 0x3368_c24c, [0xffff_ffff_ffff_ffff, 1, TAR], [0x1004, 0xffff_ffff_ffff_ffff, 1]), // bclr 14,14,0
    Row(0x4dd9_0821, 0x1000, 0x559f_7077, [0x8000_0000_0000_0001, 2, TAR], [0x8000_0000_0000_0000, 0x1004, 2]), // bclrl 14,25,1
    Row(0x4de4_1021, 0x1000, 0xb6e9_ba63, [0x249a, 2, TAR], [0x1004, 0x1004, 2]), // bclrl 15,4,2
    Row(0x4def_1820, 0x1000, 0x60eb_94ce, [0x1_0000_0000, 1, TAR], [0x1_0000_0000, 0x1_0000_0000, 1]), // bclr 15,15,3
    Row(0x4e1a_0020, 0x1000, 0x1460_f59d, [0x5550, 1, TAR], [0x1004, 0x5550, 0]), // bclr 16,26,0
    Row(0x4e05_0821, 0x1000, 0x786d_d45a, [0x24a5, 2, TAR], [0x24a4, 0x1004, 1]), // bclrl 16,5,1
    Row(0x4e10_1020, 0x1000, 0x447c_d54e, [0x5552, 2, TAR], [0x5550, 0x5552, 1]), // bclr 16,16,2
    Row(0x4e3b_1820, 0x1000, 0x390b_5127, [0x5553, 1, TAR], [0x1004, 0x5553, 0]), // bclr 17,27,3
    Row(0x4e26_0021, 0x1000, 0xec43_4c28, [0x24b0, 2, TAR], [0x24b0, 0x1004, 1]), // bclrl 17,6,0
    Row(0x4e31_0820, 0x1000, 0x6713_42a3, [0x8000_0000_0000_0001, 1, TAR], [0x1004, 0x8000_0000_0000_0001, 0]), // bclr 17,17,1
    Row(0x4e5c_1020, 0x1000, 0x38e7_87f6, [3, 1, TAR], [0, 3, 0]), // bclr 18,28,2
    Row(0x4e47_1821, 0x1000, 0xe6a8_2dec, [0x24bf, 2, TAR], [0x1004, 0x1004, 1]), // bclrl 18,7,3
    Row(0x4e52_0020, 0x1000, 0x8503_f067, [0x5550, 2, TAR], [0x1004, 0x5550, 1]), // bclr 18,18,0
    Row(0x4e7d_0820, 0x1000, 0x91da_2848, [0x5551, 1, TAR], [0x5550, 0x5551, 0]), // bclr 19,29,1
    Row(0x4e68_1021, 0x1000, 0x456e_c68d, [0x24ca, 2, TAR], [0x1004, 0x1004, 1]), // bclrl 19,8,2
    Row(0x4e73_1820, 0x1000, 0x3b4_d65d, [0x5553, 1, TAR], [0x5550, 0x5553, 0]), // bclr 19,19,3
    Row(0x4e9e_0020, 0x1000, 0xc2a2_7390, [0xffff_ffff_ffff_ffff, 1, TAR], [0xffff_ffff_ffff_fffc, 0xffff_ffff_ffff_ffff, 1]), // bclr 20,30,0
    Row(0x4e89_0821, 0x1000, 0xa8cd_1067, [0x24d5, 2, TAR], [0x24d4, 0x1004, 2]), // bclrl 20,9,1
    Row(0x4eb4_1021, 0x1000, 0x79ad_9016, [3, 2, TAR], [0, 0x1004, 2]), // bclrl 21,20,2
    Row(0x4ebf_1820, 0x1000, 0x39ec_83df, [0x1_0000_0000, 1, TAR], [0x1_0000_0000, 0x1_0000_0000, 1]), // bclr 21,31,3
    Row(0x4eca_0020, 0x1000, 0x1b48_3903, [0x24e0, 1, TAR], [0x24e0, 0x24e0, 1]), // bclr 22,10,0
    Row(0x4ed5_0821, 0x1000, 0x53df_9e7a, [0x5551, 2, TAR], [0x5550, 0x1004, 2]), // bclrl 22,21,1
    Row(0x4ee0_1021, 0x1000, 0x6a0e_8d0f, [0x5552, 2, TAR], [0x5550, 0x1004, 2]), // bclrl 23,0,2
    Row(0x4eeb_1820, 0x1000, 0x2074_d3e6, [0x24ef, 1, TAR], [0x24ec, 0x24ef, 1]), // bclr 23,11,3
    Row(0x4f16_0020, 0x1000, 0xe470_7cdc, [0xffff_ffff_ffff_ffff, 1, TAR], [0x1004, 0xffff_ffff_ffff_ffff, 0]), // bclr 24,22,0
    Row(0x4f01_0821, 0x1000, 0xfde8_f1d7, [0x8000_0000_0000_0001, 1, TAR], [0x1004, 0x1004, 0]), // bclrl 24,1,1
    Row(0x4f0c_1020, 0x1000, 0x21fb_2cd0, [0x24fa, 2, TAR], [0x24f8, 0x24fa, 1]), // bclr 24,12,2
    Row(0x4f37_1820, 0x1000, 0xeb40_c8a1, [0x1_0000_0000, 2, TAR], [0x1_0000_0000, 0x1_0000_0000, 1]), // bclr 25,23,3
    Row(0x4f22_0021, 0x1000, 0xe8d5_2fe4, [0x5550, 1, TAR], [0x1004, 0x1004, 0]), // bclrl 25,2,0
    Row(0x4f2d_0820, 0x1000, 0xab7f_8936, [0x2505, 2, TAR], [0x2504, 0x2505, 1]), // bclr 25,13,1
    Row(0x4f58_1020, 0x1000, 0x10ef_4b42, [0x5552, 1, TAR], [0x5550, 0x5552, 0]), // bclr 26,24,2
    Row(0x4f43_1821, 0x1000, 0x1c7d_1058, [0x5553, 1, TAR], [0x5550, 0x1004, 0]), // bclrl 26,3,3
    Row(0x4f4e_0020, 0x1000, 0xba52_ddfc, [0x2510, 2, TAR], [0x1004, 0x2510, 1]), // bclr 26,14,0
    Row(0x4f79_0820, 0x1000, 0x3413_ff2a, [0x8000_0000_0000_0001, 2, TAR], [0x1004, 0x8000_0000_0000_0001, 1]), // bclr 27,25,1
    Row(0x4f64_1021, 0x1000, 0x3afa_afdc, [3, 1, TAR], [0, 0x1004, 0]), // bclrl 27,4,2
    Row(0x4f6f_1820, 0x1000, 0x7481_a296, [0x251f, 2, TAR], [0x1004, 0x251f, 1]), // bclr 27,15,3
    Row(0x4f9a_0020, 0x1000, 0xb9fe_c4c8, [0x5550, 1, TAR], [0x5550, 0x5550, 1]), // bclr 28,26,0
    Row(0x4f85_0821, 0x1000, 0x5772_7a37, [0x5551, 2, TAR], [0x5550, 0x1004, 2]), // bclrl 28,5,1
    Row(0x4fb0_1021, 0x1000, 0x1bf1_4d1d, [0x252a, 2, TAR], [0x2528, 0x1004, 2]), // bclrl 29,16,2
    Row(0x4fbb_1820, 0x1000, 0x4641_b377, [0x5553, 1, TAR], [0x5550, 0x5553, 1]), // bclr 29,27,3
    Row(0x4fc6_0020, 0x1000, 0xe154_1dae, [0xffff_ffff_ffff_ffff, 1, TAR], [0xffff_ffff_ffff_fffc, 0xffff_ffff_ffff_ffff, 1]), // bclr 30,6,0
    Row(0x4fd1_0821, 0x1000, 0xac30_4a24, [0x2535, 2, TAR], [0x2534, 0x1004, 2]), // bclrl 30,17,1
    Row(0x4ffc_1021, 0x1000, 0x4a1e_e411, [3, 2, TAR], [0, 0x1004, 2]), // bclrl 31,28,2
    Row(0x4fe7_1820, 0x1000, 0xd36f_d4cb, [0x1_0000_0000, 1, TAR], [0x1_0000_0000, 0x1_0000_0000, 1]), // bclr 31,7,3
    Row(0x4c12_0460, 0x1000, 0xdb8d_4ad7, [LR, 1, 0x2540], [0x1004, LR, 0]), // bctar 0,18,0
    Row(0x4c1d_0c61, 0x1000, 0x689_6549, [LR, 2, 0x5551], [0x5550, 0x1004, 1]), // bctarl 0,29,1
    Row(0x4c08_1460, 0x1000, 0x25a8_2d1e, [LR, 2, 0x5552], [0x1004, LR, 1]), // bctar 0,8,2
    Row(0x4c33_1c60, 0x1000, 0x5312_cbbd, [LR, 1, 0x254f], [0x1004, LR, 0]), // bctar 1,19,3
    Row(0x4c3e_0461, 0x1000, 0x6448_f8d4, [LR, 2, 0xffff_ffff_ffff_ffff], [0xffff_ffff_ffff_fffc, 0x1004, 1]), // bctarl 1,30,0
    Row(0x4c29_0c60, 0x1000, 0xa978_0046, [LR, 1, 0x8000_0000_0000_0001], [0x1004, LR, 0]), // bctar 1,9,1
    Row(0x4c54_1460, 0x1000, 0xd4a4_e76d, [LR, 1, 0x255a], [0x2558, LR, 0]), // bctar 2,20,2
    Row(0x4c5f_1c61, 0x1000, 0x442e_776e, [LR, 2, 0x1_0000_0000], [0x1004, 0x1004, 1]), // bctarl 2,31,3
    Row(0x4c4a_0460, 0x1000, 0x37e_5613, [LR, 2, 0x5550], [0x1004, LR, 1]), // bctar 2,10,0
    Row(0x4c75_0c60, 0x1000, 0x2da3_ca52, [LR, 1, 0x2565], [0x2564, LR, 0]), // bctar 3,21,1
    Row(0x4c60_1461, 0x1000, 0x565a_3e03, [LR, 2, 0x5552], [0x1004, 0x1004, 1]), // bctarl 3,0,2
    Row(0x4c6b_1c60, 0x1000, 0xea99_99cd, [LR, 1, 0x5553], [0x1004, LR, 0]), // bctar 3,11,3
    Row(0x4c96_0460, 0x1000, 0x4094_6149, [LR, 1, 0x2570], [0x2570, LR, 1]), // bctar 4,22,0
    Row(0x4c81_0c61, 0x1000, 0x4f88_7e79, [LR, 2, 0x8000_0000_0000_0001], [0x1004, 0x1004, 2]), // bctarl 4,1,1
    Row(0x4cac_1461, 0x1000, 0xe4f2_6b17, [LR, 2, 3], [0, 0x1004, 2]), // bctarl 5,12,2
    Row(0x4cb7_1c60, 0x1000, 0xac36_b98d, [LR, 1, 0x257f], [0x1004, LR, 1]), // bctar 5,23,3
    Row(0x4cc2_0460, 0x1000, 0x8fe0_ba24, [LR, 1, 0x5550], [0x5550, LR, 1]), // bctar 6,2,0
    Row(0x4ccd_0c61, 0x1000, 0xd14d_0533, [LR, 2, 0x5551], [0x1004, 0x1004, 2]), // bctarl 6,13,1
    Row(0x4cf8_1461, 0x1000, 0xb701_812c, [LR, 2, 0x258a], [0x2588, 0x1004, 2]), // bctarl 7,24,2
    Row(0x4ce3_1c60, 0x1000, 0xde57_648d, [LR, 1, 0x5553], [0x1004, LR, 1]), // bctar 7,3,3
    Row(0x4d0e_0460, 0x1000, 0x5eb8_8e2e, [LR, 1, 0xffff_ffff_ffff_ffff], [0x1004, LR, 0]), // bctar 8,14,0
    Row(0x4d19_0c61, 0x1000, 0x13_9577, [LR, 1, 0x2595], [0x1004, 0x1004, 0]), // bctarl 8,25,1
    Row(0x4d04_1460, 0x1000, 0xc88c_97cf, [LR, 2, 3], [0, LR, 1]), // bctar 8,4,2
    Row(0x4d2f_1c60, 0x1000, 0x6d0e_2e0c, [LR, 2, 0x1_0000_0000], [0x1004, LR, 1]), // bctar 9,15,3
    Row(0x4d3a_0461, 0x1000, 0xd7f4_cfb3, [LR, 1, 0x25a0], [0x1004, 0x1004, 0]), // bctarl 9,26,0
    Row(0x4d25_0c60, 0x1000, 0xff93_ac4f, [LR, 2, 0x5551], [0x5550, LR, 1]), // bctar 9,5,1
    Row(0x4d50_1460, 0x1000, 0xbe03_2003, [LR, 1, 0x5552], [0x1004, LR, 0]), // bctar 10,16,2
    Row(0x4d5b_1c61, 0x1000, 0xd858_e3f8, [LR, 1, 0x25af], [0x25ac, 0x1004, 0]), // bctarl 10,27,3
    Row(0x4d46_0460, 0x1000, 0xe7ff_dddf, [LR, 2, 0xffff_ffff_ffff_ffff], [0x1004, LR, 1]), // bctar 10,6,0
    Row(0x4d71_0c60, 0x1000, 0x894c_b8a8, [LR, 2, 0x8000_0000_0000_0001], [0x1004, LR, 1]), // bctar 11,17,1
    Row(0x4d7c_1461, 0x1000, 0xcd3e_473d, [LR, 1, 0x25ba], [0x25b8, 0x1004, 0]), // bctarl 11,28,2
    Row(0x4d67_1c60, 0x1000, 0xb9bb_e087, [LR, 2, 0x1_0000_0000], [0x1004, LR, 1]), // bctar 11,7,3
    Row(0x4d92_0460, 0x1000, 0xd287_d4a6, [LR, 1, 0x5550], [0x1004, LR, 1]), // bctar 12,18,0
    Row(0x4d9d_0c61, 0x1000, 0x3ff7_49f5, [LR, 2, 0x25c5], [0x25c4, 0x1004, 2]), // bctarl 12,29,1
    Row(0x4da8_1461, 0x1000, 0x6a2d_9d79, [LR, 2, 0x5552], [0x1004, 0x1004, 2]), // bctarl 13,8,2
    Row(0x4db3_1c60, 0x1000, 0x99b6_9271, [LR, 1, 0x5553], [0x5550, LR, 1]), // bctar 13,19,3
    Row(0x4dde_0460, 0x1000, 0x63f3_9f51, [LR, 1, 0x25d0], [0x1004, LR, 1]), // bctar 14,30,0
    Row(0x4dc9_0c61, 0x1000, 0x194c_4535, [LR, 2, 0x8000_0000_0000_0001], [0x8000_0000_0000_0000, 0x1004, 2]), // bctarl 14,9,1
    Row(0x4df4_1461, 0x1000, 0xd41a_c588, [LR, 2, 3], [0x1004, 0x1004, 2]), // bctarl 15,20,2
    Row(0x4dff_1c60, 0x1000, 0xeb4a_8265, [LR, 1, 0x25df], [0x25dc, LR, 1]), // bctar 15,31,3
    Row(0x4e0a_0460, 0x1000, 0xff1b_d960, [LR, 1, 0x5550], [0x1004, LR, 0]), // bctar 16,10,0
    Row(0x4e15_0c61, 0x1000, 0x8f62_d0b5, [LR, 2, 0x5551], [0x5550, 0x1004, 1]), // bctarl 16,21,1
    Row(0x4e00_1460, 0x1000, 0xd48d_c9ca, [LR, 2, 0x25ea], [0x25e8, LR, 1]), // bctar 16,0,2
    Row(0x4e2b_1c60, 0x1000, 0xd74f_b24e, [LR, 1, 0x5553], [0x1004, LR, 0]), // bctar 17,11,3
    Row(0x4e36_0461, 0x1000, 0xd9b_fc3e, [LR, 2, 0xffff_ffff_ffff_ffff], [0xffff_ffff_ffff_fffc, 0x1004, 1]), // bctarl 17,22,0
    Row(0x4e21_0c60, 0x1000, 0xea16_7832, [LR, 1, 0x25f5], [0x1004, LR, 0]), // bctar 17,1,1
    Row(0x4e4c_1460, 0x1000, 0x77c7_c1bc, [LR, 1, 3], [0, LR, 0]), // bctar 18,12,2
    Row(0x4e57_1c61, 0x1000, 0xce2f_4693, [LR, 2, 0x1_0000_0000], [0x1004, 0x1004, 1]), // bctarl 18,23,3
    Row(0x4e42_0460, 0x1000, 0x3b99_ef73, [LR, 2, 0x2600], [0x1004, LR, 1]), // bctar 18,2,0
    Row(0x4e6d_0c60, 0x1000, 0x7e7b_ad08, [LR, 1, 0x5551], [0x5550, LR, 0]), // bctar 19,13,1
    Row(0x4e78_1461, 0x1000, 0xe234_ee09, [LR, 2, 0x5552], [0x1004, 0x1004, 1]), // bctarl 19,24,2
    Row(0x4e63_1c60, 0x1000, 0xf1ae_6112, [LR, 1, 0x260f], [0x260c, LR, 0]), // bctar 19,3,3
    Row(0x4e8e_0460, 0x1000, 0xf1ac_d95b, [LR, 1, 0xffff_ffff_ffff_ffff], [0xffff_ffff_ffff_fffc, LR, 1]), // bctar 20,14,0
    Row(0x4e99_0c61, 0x1000, 0x26d5_864c, [LR, 2, 0x8000_0000_0000_0001], [0x8000_0000_0000_0000, 0x1004, 2]), // bctarl 20,25,1
    Row(0x4ea4_1461, 0x1000, 0x22c8_aacd, [LR, 2, 0x261a], [0x2618, 0x1004, 2]), // bctarl 21,4,2
    Row(0x4eaf_1c60, 0x1000, 0xee79_3cfe, [LR, 1, 0x1_0000_0000], [0x1_0000_0000, LR, 1]), // bctar 21,15,3
    Row(0x4eda_0460, 0x1000, 0x7c48_2ad6, [LR, 1, 0x5550], [0x5550, LR, 1]), // bctar 22,26,0
    Row(0x4ec5_0c61, 0x1000, 0x34d0_fbf9, [LR, 2, 0x2625], [0x2624, 0x1004, 2]), // bctarl 22,5,1
    Row(0x4ef0_1461, 0x1000, 0xe747_1bb5, [LR, 2, 0x5552], [0x5550, 0x1004, 2]), // bctarl 23,16,2
    Row(0x4efb_1c60, 0x1000, 0x800_5592, [LR, 1, 0x5553], [0x5550, LR, 1]), // bctar 23,27,3
    Row(0x4f06_0460, 0x1000, 0x6c5f_a0a0, [LR, 1, 0x2630], [0x1004, LR, 0]), // bctar 24,6,0
    Row(0x4f11_0c61, 0x1000, 0x6c02_70e0, [LR, 1, 0x8000_0000_0000_0001], [0x1004, 0x1004, 0]), // bctarl 24,17,1
    Row(0x4f1c_1460, 0x1000, 0x5f9d_242f, [LR, 2, 3], [0, LR, 1]), // bctar 24,28,2
    Row(0x4f27_1c60, 0x1000, 0xfc64_d947, [LR, 2, 0x263f], [0x263c, LR, 1]), // bctar 25,7,3
    Row(0x4f32_0461, 0x1000, 0xa9b6_bbe9, [LR, 1, 0x5550], [0x1004, 0x1004, 0]), // bctarl 25,18,0
    Row(0x4f3d_0c60, 0x1000, 0xcf93_5464, [LR, 2, 0x5551], [0x5550, LR, 1]), // bctar 25,29,1
    Row(0x4f48_1460, 0x1000, 0x4957_b1cd, [LR, 1, 0x264a], [0x2648, LR, 0]), // bctar 26,8,2
    Row(0x4f53_1c61, 0x1000, 0x76b5_b22a, [LR, 1, 0x5553], [0x5550, 0x1004, 0]), // bctarl 26,19,3
    Row(0x4f5e_0460, 0x1000, 0x9e02_a61f, [LR, 2, 0xffff_ffff_ffff_ffff], [0x1004, LR, 1]), // bctar 26,30,0
    Row(0x4f69_0c60, 0x1000, 0x9917_717d, [LR, 2, 0x2655], [0x1004, LR, 1]), // bctar 27,9,1
    Row(0x4f74_1461, 0x1000, 0x4419_bcdc, [LR, 1, 3], [0, 0x1004, 0]), // bctarl 27,20,2
    Row(0x4f7f_1c60, 0x1000, 0xf77a_c1cb, [LR, 2, 0x1_0000_0000], [0x1004, LR, 1]), // bctar 27,31,3
    Row(0x4f8a_0460, 0x1000, 0x1154_60a2, [LR, 1, 0x2660], [0x2660, LR, 1]), // bctar 28,10,0
    Row(0x4f95_0c61, 0x1000, 0xf6f1_bdd0, [LR, 2, 0x5551], [0x5550, 0x1004, 2]), // bctarl 28,21,1
    Row(0x4fa0_1461, 0x1000, 0x8f8_a7b4, [LR, 2, 0x5552], [0x5550, 0x1004, 2]), // bctarl 29,0,2
    Row(0x4fab_1c60, 0x1000, 0x155c_99d3, [LR, 1, 0x266f], [0x266c, LR, 1]), // bctar 29,11,3
    Row(0x4fd6_0460, 0x1000, 0x9ea1_1ce5, [LR, 1, 0xffff_ffff_ffff_ffff], [0xffff_ffff_ffff_fffc, LR, 1]), // bctar 30,22,0
    Row(0x4fc1_0c61, 0x1000, 0x5e22_fafc, [LR, 2, 0x8000_0000_0000_0001], [0x8000_0000_0000_0000, 0x1004, 2]), // bctarl 30,1,1
    Row(0x4fec_1461, 0x1000, 0xa0f2_290d, [LR, 2, 0x267a], [0x2678, 0x1004, 2]), // bctarl 31,12,2
    Row(0x4ff7_1c60, 0x1000, 0xd5e5_d1ac, [LR, 1, 0x1_0000_0000], [0x1_0000_0000, LR, 1]), // bctar 31,23,3
    Row(0x4c82_0420, 0x1000, 0x935d_cae2, [LR, 0x5550, TAR], [0x5550, LR, 0x5550]), // bcctr 4,2,0
    Row(0x4c8d_0c21, 0x1000, 0xba64_5c3e, [LR, 0x2685, TAR], [0x1004, 0x1004, 0x2685]), // bcctrl 4,13,1
    Row(0x4cb8_1421, 0x1000, 0xf9c6_8161, [LR, 0x5552, TAR], [0x5550, 0x1004, 0x5552]), // bcctrl 5,24,2
    Row(0x4ca3_1c20, 0x1000, 0x79e1_797c, [LR, 0x5553, TAR], [0x1004, LR, 0x5553]), // bcctr 5,3,3
    Row(0x4cce_0420, 0x1000, 0x5ec_eabb, [LR, 0x2690, TAR], [0x2690, LR, 0x2690]), // bcctr 6,14,0
    Row(0x4cd9_0c21, 0x1000, 0x9fbc_9d5c, [LR, 0x8000_0000_0000_0001, TAR], [0x1004, 0x1004, 0x8000_0000_0000_0001]), // bcctrl 6,25,1
    Row(0x4ce4_1421, 0x1000, 0x7543_962e, [LR, 3, TAR], [0, 0x1004, 3]), // bcctrl 7,4,2
    Row(0x4cef_1c20, 0x1000, 0x2c87_32ef, [LR, 0x269f, TAR], [0x1004, LR, 0x269f]), // bcctr 7,15,3
    Row(0x4d9a_0420, 0x1000, 0xfba8_ce8c, [LR, 0x5550, TAR], [0x1004, LR, 0x5550]), // bcctr 12,26,0
    Row(0x4d85_0c21, 0x1000, 0x7c0_3fb1, [LR, 0x5551, TAR], [0x5550, 0x1004, 0x5551]), // bcctrl 12,5,1
    Row(0x4db0_1421, 0x1000, 0x8b2a_4918, [LR, 0x26aa, TAR], [0x1004, 0x1004, 0x26aa]), // bcctrl 13,16,2
    Row(0x4dbb_1c20, 0x1000, 0x425f_2590, [LR, 0x5553, TAR], [0x5550, LR, 0x5553]), // bcctr 13,27,3
    Row(0x4dc6_0420, 0x1000, 0xf98a_4290, [LR, 0xffff_ffff_ffff_ffff, TAR], [0x1004, LR, 0xffff_ffff_ffff_ffff]), // bcctr 14,6,0
    Row(0x4dd1_0c21, 0x1000, 0xda32_4783, [LR, 0x26b5, TAR], [0x26b4, 0x1004, 0x26b5]), // bcctrl 14,17,1
    Row(0x4dfc_1421, 0x1000, 0x2546_3574, [LR, 3, TAR], [0x1004, 0x1004, 3]), // bcctrl 15,28,2
    Row(0x4de7_1c20, 0x1000, 0xd1d8_3ea5, [LR, 0x1_0000_0000, TAR], [0x1_0000_0000, LR, 0x1_0000_0000]), // bcctr 15,7,3
    Row(0x4e92_0420, 0x1000, 0x77e5_177f, [LR, 0x26c0, TAR], [0x26c0, LR, 0x26c0]), // bcctr 20,18,0
    Row(0x4e9d_0c21, 0x1000, 0xc4e7_3cc7, [LR, 0x5551, TAR], [0x5550, 0x1004, 0x5551]), // bcctrl 20,29,1
    Row(0x4ea8_1421, 0x1000, 0x9018_ad5d, [LR, 0x5552, TAR], [0x5550, 0x1004, 0x5552]), // bcctrl 21,8,2
    Row(0x4eb3_1c20, 0x1000, 0x2084_d1ef, [LR, 0x26cf, TAR], [0x26cc, LR, 0x26cf]), // bcctr 21,19,3
    Row(0x4ede_0420, 0x1000, 0xc99d_82d0, [LR, 0xffff_ffff_ffff_ffff, TAR], [0xffff_ffff_ffff_fffc, LR, 0xffff_ffff_ffff_ffff]), // bcctr 22,30,0
    Row(0x4ec9_0c21, 0x1000, 0x5e2_1b9e, [LR, 0x8000_0000_0000_0001, TAR], [0x8000_0000_0000_0000, 0x1004, 0x8000_0000_0000_0001]), // bcctrl 22,9,1
    Row(0x4ef4_1421, 0x1000, 0xf6ed_f462, [LR, 0x26da, TAR], [0x26d8, 0x1004, 0x26da]), // bcctrl 23,20,2
    Row(0x4eff_1c20, 0x1000, 0x7439_e591, [LR, 0x1_0000_0000, TAR], [0x1_0000_0000, LR, 0x1_0000_0000]), // bcctr 23,31,3
    Row(0x4f8a_0420, 0x1000, 0xeadf_9535, [LR, 0x5550, TAR], [0x5550, LR, 0x5550]), // bcctr 28,10,0
    Row(0x4f95_0c21, 0x1000, 0x8583_1629, [LR, 0x26e5, TAR], [0x26e4, 0x1004, 0x26e5]), // bcctrl 28,21,1
    Row(0x4fa0_1421, 0x1000, 0x1f30_a1c8, [LR, 0x5552, TAR], [0x5550, 0x1004, 0x5552]), // bcctrl 29,0,2
    Row(0x4fab_1c20, 0x1000, 0xa313_89d6, [LR, 0x5553, TAR], [0x5550, LR, 0x5553]), // bcctr 29,11,3
    Row(0x4fd6_0420, 0x1000, 0x2660_3d5e, [LR, 0x26f0, TAR], [0x26f0, LR, 0x26f0]), // bcctr 30,22,0
    Row(0x4fc1_0c21, 0x1000, 0xd792_0ef5, [LR, 0x8000_0000_0000_0001, TAR], [0x8000_0000_0000_0000, 0x1004, 0x8000_0000_0000_0001]), // bcctrl 30,1,1
    Row(0x4fec_1421, 0x1000, 0x39c0_8e48, [LR, 3, TAR], [0, 0x1004, 3]), // bcctrl 31,12,2
    Row(0x4ff7_1c20, 0x1000, 0x891c_7562, [LR, 0x26ff, TAR], [0x26fc, LR, 0x26ff]), // bcctr 31,23,3
    Row(0x4e80_e020, 0x1000, 0, [0x3003, 1, TAR], [0x3000, 0x3003, 1]), // bclr 20,0,0, with its reserved bits
    Row(0x4e05_a461, 0x1000, 0, [LR, 0, 0x4007], [0x4004, 0x1004, 0xffff_ffff_ffff_ffff]), // bctarl 16,5,0, with reserved bits
];

#[test]
fn branches_go_on_where_they_should(rt: HostRuntime) -> Result<(), Fail> {
    let mut state = first(rt.alloc())?;
    for rows in [
        COUNTED.as_slice(),
        LINKED.as_slice(),
        BY_REGISTER.as_slice(),
    ] {
        for Row(word, cia, cr, [lr, ctr, tar], behind) in rows {
            lay(&mut state, *word, 0, *cia);
            state.regs.cr = *cr;
            state.regs.lr = *lr;
            state.regs.ctr = *ctr;
            state.regs.tar = *tar;
            assert!(rt; retires(&mut state), "{word:08x}");
            let regs = &state.regs;
            assert_eq!(rt; [regs.cia, regs.lr, regs.ctr], *behind, "{word:08x}");
            assert_eq!(rt; [regs.cr, 0], [*cr, 0], "CR of {word:08x}");
            assert_eq!(rt; [regs.tar, regs.xer], [*tar, 0], "{word:08x}");
            assert!(rt; regs.gpr == [OTHER; 32], "{word:08x}");
        }
    }
    Ok(())
}
