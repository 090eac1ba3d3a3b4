// The coefficients of Stirling's series (DGAMLN's CF, DLMF 5.11.1), each the nearest f64. series.rt copies the array before its loop, which then unrolls:
// no entry is stored (tools/objects). Written and confirmed by tools/tables/gamma_ln.py, with specs/Coefficients.antt.

// B(2k)/(2k(2k-1)) with k = i + 1
pub const COEFFICIENTS: [f64; 22] = [
    0.08333333333333333,
    -0.002777777777777778,
    0.0007936507936507937,
    -0.0005952380952380953,
    0.0008417508417508417,
    -0.0019175269175269176,
    0.00641025641025641,
    -0.029550653594771242,
    0.17964437236883057,
    -1.3924322169059011,
    13.402864044168393,
    -156.84828462600203,
    2193.1033333333335,
    -36108.77125372499,
    691472.268851313,
    -15238221.539407415,
    382900751.39141417,
    -10882266035.784391,
    347320283765.00226,
    -12369602142269.275,
    488788064793079.3,
    -2.1320333960919372e+16,
];
