use mw_asm::assemble;
use std::test::Fail;

/// One statement for each mnemonic, behind one another from address 0 on.
const STATEMENTS: &str = "\
addi r13,r7,18982
addis r23,r4,-23274
addic r29,r20,-20431
addic. r14,r21,-25166
subfic r19,r9,-27854
mulli r5,r16,22042
cmpi 1,1,r4,-16542
cmpli 3,0,r21,51993
tdi 2,r10,-26663
twi 18,r30,-15313
ori r12,r16,18907
oris r20,r6,40433
xori r20,r29,23688
xoris r6,r21,24624
andi. r14,r6,8229
andis. r21,r4,26995
addpcis r18,23277
b .+12736
bl .+5148
ba 7632
bla 9596
bc 16,23,.+4912
bcl 12,11,.+11456
bca 12,5,9412
bcla 20,31,14340
bclr 20,28,1
bclrl 4,7,3
bcctr 20,26,0
bcctrl 20,21,0
bctar 16,26,0
bctarl 4,20,1
crnor 22,31,29
crandc 4,5,17
crxor 30,4,3
crnand 19,28,18
crand 24,22,1
creqv 29,22,10
crorc 7,31,3
cror 13,18,8
mcrf 3,6
rlwinm r15,r30,16,5,10
rlwinm. r17,r15,18,17,8
rlwnm r29,r16,r30,17,26
rlwnm. r14,r24,r31,24,14
rlwimi r7,r5,6,9,14
rlwimi. r24,r10,1,31,11
rldicl r11,r12,32,37
rldicl. r16,r20,55,52
rldicr r21,r13,40,55
rldicr. r30,r19,35,47
rldic r31,r30,57,45
rldic. r15,r15,38,48
rldimi r23,r15,35,39
rldimi. r5,r9,60,38
rldcl r6,r13,r22,34
rldcl. r6,r3,r21,37
rldcr r20,r6,r14,52
rldcr. r3,r5,r30,39
maddhd r22,r15,r7,r23
maddhdu r11,r14,r22,r14
maddld r18,r6,r6,r30
add r18,r17,r18
add. r18,r12,r5
addo r7,r6,r26
addo. r13,r26,r11
subf r18,r29,r25
subf. r8,r19,r3
subfo r9,r19,r14
subfo. r7,r25,r20
neg r3,r27
neg. r19,r12
nego r23,r30
nego. r5,r25
addc r30,r11,r19
addc. r14,r8,r14
addco r27,r10,r20
addco. r20,r27,r19
subfc r13,r23,r10
subfc. r22,r28,r28
subfco r27,r30,r9
subfco. r28,r10,r29
adde r15,r26,r28
adde. r10,r9,r19
addeo r18,r14,r26
addeo. r3,r3,r28
subfe r11,r18,r11
subfe. r9,r25,r22
subfeo r14,r17,r28
subfeo. r26,r14,r14
addme r5,r10
addme. r6,r10
addmeo r18,r9
addmeo. r13,r9
subfme r18,r22
subfme. r31,r22
subfmeo r29,r3
subfmeo. r18,r23
addze r14,r28
addze. r23,r5
addzeo r29,r24
addzeo. r6,r15
subfze r28,r25
subfze. r27,r9
subfzeo r18,r31
subfzeo. r8,r16
mullw r28,r23,r13
mullw. r5,r28,r26
mullwo r15,r17,r15
mullwo. r26,r5,r26
mulld r8,r8,r7
mulld. r3,r7,r21
mulldo r31,r17,r28
mulldo. r23,r7,r22
mulhd r29,r22,r18
mulhd. r24,r14,r7
mulhdu r20,r20,r7
mulhdu. r3,r3,r28
mulhw r26,r23,r6
mulhw. r19,r26,r7
mulhwu r16,r30,r9
mulhwu. r29,r30,r9
divd r3,r11,r9
divd. r12,r19,r10
divdo r27,r21,r13
divdo. r11,r20,r16
divdu r29,r7,r4
divdu. r26,r14,r31
divduo r17,r24,r21
divduo. r29,r31,r19
divw r16,r29,r31
divw. r19,r7,r20
divwo r7,r19,r19
divwo. r3,r30,r17
divwu r27,r8,r22
divwu. r3,r27,r28
divwuo r7,r8,r7
divwuo. r18,r22,r26
divde r6,r20,r4
divde. r13,r24,r19
divdeo r19,r20,r18
divdeo. r28,r27,r6
divdeu r31,r20,r4
divdeu. r10,r9,r11
divdeuo r4,r27,r6
divdeuo. r19,r17,r20
divwe r3,r27,r31
divwe. r5,r17,r13
divweo r22,r19,r22
divweo. r19,r9,r25
divweu r11,r17,r19
divweu. r20,r28,r18
divweuo r19,r10,r25
divweuo. r19,r31,r31
modsd r11,r20,r31
modud r9,r29,r17
modsw r7,r16,r6
moduw r15,r17,r13
addex r5,r24,r10,0
and r16,r5,r9
and. r24,r12,r28
andc r6,r31,r27
andc. r7,r25,r23
or r24,r14,r7
or. r11,r31,r7
orc r17,r10,r26
orc. r6,r15,r31
xor r18,r8,r24
xor. r29,r10,r8
eqv r25,r16,r19
eqv. r15,r13,r16
nand r9,r14,r13
nand. r5,r26,r14
nor r3,r13,r20
nor. r17,r17,r25
slw r3,r15,r13
slw. r19,r22,r12
srw r19,r5,r6
srw. r28,r10,r31
sld r6,r5,r11
sld. r11,r4,r31
srd r27,r8,r11
srd. r27,r7,r29
sraw r16,r30,r24
sraw. r29,r11,r15
srawi r7,r20,30
srawi. r19,r21,16
srad r25,r13,r5
srad. r11,r4,r28
sradi r25,r8,59
sradi. r31,r5,49
extswsli r3,r23,37
extswsli. r28,r11,37
extsb r22,r30
extsb. r10,r5
extsh r11,r30
extsh. r6,r17
extsw r3,r13
extsw. r20,r16
cntlzw r11,r22
cntlzw. r7,r4
cntlzd r19,r25
cntlzd. r10,r6
cnttzw r8,r11
cnttzw. r4,r8
cnttzd r9,r12
cnttzd. r23,r12
cntlzdm r19,r27,r9
cnttzdm r12,r17,r19
popcntb r24,r8
popcntw r11,r14
popcntd r28,r3
prtyw r11,r4
prtyd r3,r3
brh r26,r19
brw r20,r9
brd r19,r18
pdepd r10,r17,r6
pextd r24,r29,r23
cfuged r16,r24,r18
bpermd r20,r29,r31
cmpb r15,r19,r12
cmp 3,0,r29,r31
cmpl 2,0,r29,r7
tw 1,r5,r23
td 24,r31,r11
isel r16,r8,r4,5
mfcr r24
mfocrf r29,64
mtcrf 144,r22
mtocrf 8,r25
setb r12,0
setbc r17,11
setbcr r8,17
setnbc r17,0
setnbcr r11,23
cmprb 5,0,r4,r31
cmpeqb 4,r9,r14
mcrxrx 2
lwz r3,11184(r15)
lwzu r5,29444(r11)
lbz r19,-6426(r10)
lbzu r19,-32120(r5)
stw r11,-21004(r7)
stwu r15,-27307(r15)
stb r3,6507(r12)
stbu r23,-2254(r5)
lhz r21,-12419(r24)
lhzu r31,18286(r27)
lha r13,32006(r7)
lhau r12,-13796(r4)
sth r29,23493(r26)
sthu r25,-14509(r19)
ld r27,-30664(r29)
ldu r24,-2632(r5)
lwa r3,-27284(r7)
std r23,14508(r6)
stdu r15,26396(r20)
ldx r4,r23,r3
lwzx r23,r20,r24
ldux r10,r18,r11
lwzux r3,r17,r28
lbzx r5,r26,r19
lbzux r31,r20,r5
lhzx r24,r19,r5
lhzux r26,r27,r18
lwax r11,r28,r5
lhax r30,r11,r10
lwaux r26,r27,r9
lhaux r10,r26,r23
ldbrx r17,r18,r30
lwbrx r15,r5,r18
lhbrx r24,r12,r27
stdx r4,r22,r23
stwx r23,r9,r5
stdux r22,r7,r13
stwux r11,r23,r26
stbx r25,r12,r22
stbux r21,r7,r3
sthx r18,r4,r18
sthux r11,r24,r6
stdbrx r25,r9,r24
stwbrx r18,r12,r25
sthbrx r19,r12,r17
lwarx r17,r17,r27
lbarx r6,r31,r20
ldarx r9,r12,r5
lharx r18,r3,r12
stwcx. r17,r5,r29
stdcx. r19,r17,r11
stbcx. r15,r9,r9
sthcx. r5,r21,r5
lwzcix r7,r26,r19
lhzcix r11,r14,r7
lbzcix r22,r29,r23
ldcix r19,r11,r31
stwcix r6,r25,r14
sthcix r10,r18,r31
stbcix r31,r18,r15
stdcix r3,r8,r3
dcbst r18,r24
dcbf r17,r15
dcbtst r12,r26
dcbt r7,r16
icbi r14,r15
dcbz r13,r6
sc
rfid
hrfid
isync
sync 1
eieio
tlbsync
mfmsr r27
mtmsr r13,0
mtmsrd r25,1
tlbie r11,r14,3,1,0
tlbiel r5,r15,3,1,0
mfspr r15,9
mtspr 815,r5
mftb r14,269
darn r27,0
paddi r6,r4,-276639325,0
plwz r10,4170579029(r16),0
plbz r19,-2939469702(r27),0
pstw r14,-8243859445(r26),0
pstb r16,-1062282811(r23),0
plhz r30,5524222670(r4),0
plha r20,-3748169332(r18),0
psth r16,1476020709(r12),0
plwa r11,5412384889(r23),0
pld r10,5587049330(r20),0
pstd r24,-6896137879(r8),0
pnop
li r3,-5
lis r3,65535
lis r4,-32768
mr r3,r4
nop
blr
bctr
lwsync
ptesync
";

/// The statements' words, a prefix before its suffix: those of LLVM's assembler, but for ten mnemonics
/// that it lacks and for mftb, whose own code it doesn't use; these are worked out from the manual.
#[rattlefmt::skip]
static WORDS: [u32; 354] = [
    0x39a7_4a26, 0x3ee4_a516, 0x33b4_b031, 0x35d5_9db2, 0x2269_9332, 0x1cb0_561a, 0x2ca4_bf62, 0x2995_cb19,
    0x084a_97d9, 0x0e5e_c42f, 0x620c_49db, 0x64d4_9df1, 0x6bb4_5c88, 0x6ea6_6030, 0x70ce_2025, 0x7495_6973,
    0x4e56_5ac5, 0x4800_31c0, 0x4800_141d, 0x4800_1dd2, 0x4800_257f, 0x4217_1330, 0x418b_2cc1, 0x4185_24c6,
    0x429f_3807, 0x4e9c_0820, 0x4c87_1821, 0x4e9a_0420, 0x4e95_0421, 0x4e1a_0460, 0x4c94_0c61, 0x4edf_e842,
    0x4c85_8902, 0x4fc4_1982, 0x4e7c_91c2, 0x4f16_0a02, 0x4fb6_5242, 0x4cff_1b42, 0x4db2_4382, 0x4d98_0000,
    0x57cf_8154, 0x55f1_9451, 0x5e1d_f474, 0x5f0e_fe1d, 0x50a7_325c, 0x5158_0fd7, 0x798b_0162, 0x7a90_bd23,
    0x79b5_45e6, 0x7a7e_1be7, 0x7bdf_cb6a, 0x79ef_342b, 0x79f7_19ee, 0x7925_e1af, 0x79a6_b0b0, 0x7866_a971,
    0x78d4_7532, 0x78a3_f1f3, 0x12cf_3df0, 0x116e_b3b1, 0x1246_37b3, 0x7e51_9214, 0x7e4c_2a15, 0x7ce6_d614,
    0x7dba_5e15, 0x7e5d_c850, 0x7d13_1851, 0x7d33_7450, 0x7cf9_a451, 0x7c7b_00d0, 0x7e6c_00d1, 0x7efe_04d0,
    0x7cb9_04d1, 0x7fcb_9814, 0x7dc8_7015, 0x7f6a_a414, 0x7e9b_9c15, 0x7db7_5010, 0x7edc_e011, 0x7f7e_4c10,
    0x7f8a_ec11, 0x7dfa_e114, 0x7d49_9915, 0x7e4e_d514, 0x7c63_e515, 0x7d72_5910, 0x7d39_b111, 0x7dd1_e510,
    0x7f4e_7511, 0x7caa_01d4, 0x7cca_01d5, 0x7e49_05d4, 0x7da9_05d5, 0x7e56_01d0, 0x7ff6_01d1, 0x7fa3_05d0,
    0x7e57_05d1, 0x7ddc_0194, 0x7ee5_0195, 0x7fb8_0594, 0x7ccf_0595, 0x7f99_0190, 0x7f69_0191, 0x7e5f_0590,
    0x7d10_0591, 0x7f97_69d6, 0x7cbc_d1d7, 0x7df1_7dd6, 0x7f45_d5d7, 0x7d08_39d2, 0x7c67_a9d3, 0x7ff1_e5d2,
    0x7ee7_b5d3, 0x7fb6_9092, 0x7f0e_3893, 0x7e94_3812, 0x7c63_e013, 0x7f57_3096, 0x7e7a_3897, 0x7e1e_4816,
    0x7fbe_4817, 0x7c6b_4bd2, 0x7d93_53d3, 0x7f75_6fd2, 0x7d74_87d3, 0x7fa7_2392, 0x7f4e_fb93, 0x7e38_af92,
    0x7fbf_9f93, 0x7e1d_fbd6, 0x7e67_a3d7, 0x7cf3_9fd6, 0x7c7e_8fd7, 0x7f68_b396, 0x7c7b_e397, 0x7ce8_3f96,
    0x7e56_d797, 0x7cd4_2352, 0x7db8_9b53, 0x7e74_9752, 0x7f9b_3753, 0x7ff4_2312, 0x7d49_5b13, 0x7c9b_3712,
    0x7e71_a713, 0x7c7b_fb56, 0x7cb1_6b57, 0x7ed3_b756, 0x7e69_cf57, 0x7d71_9b16, 0x7e9c_9317, 0x7e6a_cf16,
    0x7e7f_ff17, 0x7d74_fe12, 0x7d3d_8a12, 0x7cf0_3616, 0x7df1_6a16, 0x7cb8_5154, 0x7cb0_4838, 0x7d98_e039,
    0x7fe6_d878, 0x7f27_b879, 0x7dd8_3b78, 0x7feb_3b79, 0x7d51_d338, 0x7de6_fb39, 0x7d12_c278, 0x7d5d_4279,
    0x7e19_9a38, 0x7daf_8239, 0x7dc9_6bb8, 0x7f45_73b9, 0x7da3_a0f8, 0x7e31_c8f9, 0x7de3_6830, 0x7ed3_6031,
    0x7cb3_3430, 0x7d5c_fc31, 0x7ca6_5836, 0x7c8b_f837, 0x7d1b_5c36, 0x7cfb_ec37, 0x7fd0_c630, 0x7d7d_7e31,
    0x7e87_f670, 0x7eb3_8671, 0x7db9_2e34, 0x7c8b_e635, 0x7d19_de76, 0x7cbf_8e77, 0x7ee3_2ef6, 0x7d7c_2ef7,
    0x7fd6_0774, 0x7caa_0775, 0x7fcb_0734, 0x7e26_0735, 0x7da3_07b4, 0x7e14_07b5, 0x7ecb_0034, 0x7c87_0035,
    0x7f33_0074, 0x7cca_0075, 0x7d68_0434, 0x7d04_0435, 0x7d89_0474, 0x7d97_0475, 0x7f73_4876, 0x7e2c_9c76,
    0x7d18_00f4, 0x7dcb_02f4, 0x7c7c_03f4, 0x7c8b_0134, 0x7c63_0174, 0x7e7a_01b6, 0x7d34_0136, 0x7e53_0176,
    0x7e2a_3138, 0x7fb8_b978, 0x7f10_91b8, 0x7fb4_f9f8, 0x7e6f_63f8, 0x7d9d_f800, 0x7d1d_3840, 0x7c25_b808,
    0x7f1f_5888, 0x7e08_215e, 0x7f00_0026, 0x7fb4_0026, 0x7ec9_0120, 0x7f30_8120, 0x7d80_0100, 0x7e2b_0300,
    0x7d11_0340, 0x7e20_0380, 0x7d77_03c0, 0x7e84_f980, 0x7e09_71c0, 0x7d00_0480, 0x806f_2bb0, 0x84ab_7304,
    0x8a6a_e6e6, 0x8e65_8288, 0x9167_adf4, 0x95ef_9555, 0x986c_196b, 0x9ee5_f732, 0xa2b8_cf7d, 0xa7fb_476e,
    0xa9a7_7d06, 0xad84_ca1c, 0xb3ba_5bc5, 0xb733_c753, 0xeb7d_8838, 0xeb05_f5b9, 0xe867_956e, 0xfae6_38ac,
    0xf9f4_671d, 0x7c97_182a, 0x7ef4_c02e, 0x7d52_586a, 0x7c71_e06e, 0x7cba_98ae, 0x7ff4_28ee, 0x7f13_2a2e,
    0x7f5b_926e, 0x7d7c_2aaa, 0x7fcb_52ae, 0x7f5b_4aea, 0x7d5a_baee, 0x7e32_f428, 0x7de5_942c, 0x7f0c_de2c,
    0x7c96_b92a, 0x7ee9_292e, 0x7ec7_696a, 0x7d77_d16e, 0x7f2c_b1ae, 0x7ea7_19ee, 0x7e44_932e, 0x7d78_336e,
    0x7f29_c528, 0x7e4c_cd2c, 0x7e6c_8f2c, 0x7e31_d828, 0x7cdf_a068, 0x7d2c_28a8, 0x7e43_60e8, 0x7e25_e92d,
    0x7e71_59ad, 0x7de9_4d6d, 0x7cb5_2dad, 0x7cfa_9e2a, 0x7d6e_3e6a, 0x7edd_beaa, 0x7e6b_feea, 0x7cd9_772a,
    0x7d52_ff6a, 0x7ff2_7faa, 0x7c68_1fea, 0x7c12_c06c, 0x7c11_78ac, 0x7c0c_d1ec, 0x7c07_822c, 0x7c0e_7fac,
    0x7c0d_37ec, 0x4400_0002, 0x4c00_0024, 0x4c00_0224, 0x4c00_012c, 0x7c20_04ac, 0x7c00_06ac, 0x7c00_046c,
    0x7f60_00a6, 0x7da0_0124, 0x7f21_0164, 0x7dce_5a64, 0x7dee_2a24, 0x7de9_02a6, 0x7caf_cba6, 0x7dcd_42e6,
    0x7f60_05e6, 0x0603_ef82, 0x38c4_d1a3, 0x0600_f895, 0x8150_fc55, 0x0603_50cb, 0x8a7b_407a, 0x0602_14a0,
    0x91da_b00b, 0x0603_c0ae, 0x9a17_d9c5, 0x0601_4944, 0xa3c4_f2ce, 0x0603_2097, 0xaa92_798c, 0x0600_57fa,
    0xb20c_49e5, 0x0401_429a, 0xa577_7079, 0x0401_4d03, 0xe554_9b72, 0x0402_64f5, 0xf708_4969, 0x0700_0000,
    0x0000_0000, 0x3860_fffb, 0x3c60_ffff, 0x3c80_8000, 0x7c83_2378, 0x6000_0000, 0x4e80_0020, 0x4e80_0420,
    0x7c20_04ac, 0x7c40_04ac,
];

#[test]
fn each_mnemonic_has_its_word(rt: HostRuntime) -> Result<(), Fail> {
    let alloc = rt.alloc();
    let mut bytes = Vec::new(alloc);
    for word in &WORDS {
        bytes.extend_from_slice(&word.to_le_bytes())?;
    }
    match assemble(alloc, STATEMENTS.as_bytes()) {
        Ok(image) => assert!(rt; image.as_slice() == bytes.as_slice()),
        Err(fault) => panic!(rt; "{fault:?}"),
    }
    Ok(())
}
