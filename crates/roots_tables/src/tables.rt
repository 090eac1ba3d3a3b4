// The seed's 128 quadratics. They are a match, which the compiler turns into constants in memory: an array would be stored anew in each
// call. Written and confirmed by tools/tables/roots.py, with specs/Tables.antt and the proof that they agree.
ghost use Rattle.std.specs.Prelude.{◌≡◌, ◌<◌, get_or};
ghost use Rattle.std.specs.Float.{nan};
ghost use Rattle.roots_tables.specs.Tables.{constants, slopes, bends};

// constant + slope * d - bend * d * d, with d the distance from the left end of the piece
#[derive(Clone, Copy)]
pub struct Quadratic {
    pub constant: f64,
    pub slope: f64,
    pub bend: f64,
}

pub fn quadratic_of(i: u64) -> Quadratic
    requires { i < 128 }
    ensures { (result.constant ≡ get_or constants i nan)
        × (result.slope ≡ get_or slopes i nan)
        × (result.bend ≡ get_or bends i nan) }
{
    match i {
        0 => Quadratic {
            constant: 1.0000000073427684,
            slope: 0.4999915365496862,
            bend: 0.12355107224918269,
        },
        1 => Quadratic {
            constant: 1.0077822256024995,
            slope: 0.49613079492813483,
            bend: 0.12073243378156939,
        },
        2 => Quadratic {
            constant: 1.015504807381561,
            slope: 0.49235812382200517,
            bend: 0.1180193614175741,
        },
        3 => Quadratic {
            constant: 1.0231691030365235,
            slope: 0.4886702250774657,
            bend: 0.11540640161491113,
        },
        4 => Quadratic {
            constant: 1.0307764127199206,
            slope: 0.485063970901395,
            bend: 0.11288845778595354,
        },
        5 => Quadratic {
            constant: 1.038327988955129,
            slope: 0.4815363927123292,
            bend: 0.11046076215117856,
        },
        6 => Quadratic {
            constant: 1.045825039043906,
            slope: 0.47808467087038076,
            bend: 0.10811885017847327,
        },
        7 => Quadratic {
            constant: 1.0532687273196848,
            slope: 0.4747061252053924,
            bend: 0.10585853733800646,
        },
        8 => Quadratic {
            constant: 1.0606601772585373,
            slope: 0.4713982062710264,
            bend: 0.10367589793395263,
        },
        9 => Quadratic {
            constant: 1.0680004734586395,
            slope: 0.4681584872599426,
            bend: 0.1015672458018666,
        },
        10 => Quadratic {
            constant: 1.0752906634981159,
            slope: 0.46498465652181076,
            bend: 0.09952911668452276,
        },
        11 => Quadratic {
            constant: 1.082531759680274,
            slope: 0.46187451063174656,
            bend: 0.0975582521200369,
        },
        12 => Quadratic {
            constant: 1.0897247406744586,
            slope: 0.4588259479619491,
            bend: 0.09565158469449318,
        },
        13 => Quadratic {
            constant: 1.0968705530600567,
            slope: 0.45583696271393104,
            bend: 0.09380622452745377,
        },
        14 => Quadratic {
            constant: 1.103970112780552,
            slope: 0.452905639372842,
            bend: 0.09201944687293552,
        },
        15 => Quadratic {
            constant: 1.1110243065139471,
            slope: 0.4500301475490519,
            bend: 0.09028868073095249,
        },
        16 => Quadratic {
            constant: 1.1180339929653633,
            slope: 0.4472087371754352,
            bend: 0.08861149837576489,
        },
        17 => Quadratic {
            constant: 1.1250000040871504,
            slope: 0.4444397340317297,
            bend: 0.08698560571673424,
        },
        18 => Quadratic {
            constant: 1.1319231462314117,
            slope: 0.441721535569967,
            bend: 0.08540883341632288,
        },
        19 => Quadratic {
            constant: 1.13880420123947,
            slope: 0.4390526070173297,
            bend: 0.08387912869743479,
        },
        20 => Quadratic {
            constant: 1.1456439274724337,
            slope: 0.4364314777349063,
            bend: 0.08239454777909481,
        },
        21 => Quadratic {
            constant: 1.1524430607867158,
            slope: 0.4338567378127218,
            bend: 0.08095324888551036,
        },
        22 => Quadratic {
            constant: 1.1592023154580524,
            slope: 0.43132703488313434,
            bend: 0.07955348577894411,
        },
        23 => Quadratic {
            constant: 1.1659223850573066,
            slope: 0.42884107113624054,
            bend: 0.07819360177162815,
        },
        24 => Quadratic {
            constant: 1.1726039432811,
            slope: 0.4263976005223265,
            bend: 0.07687202417623766,
        },
        25 => Quadratic {
            constant: 1.1792476447400821,
            slope: 0.423995426127668,
            bend: 0.07558725915827604,
        },
        26 => Quadratic {
            constant: 1.1858541257074555,
            slope: 0.4216333977111267,
            bend: 0.07433788695715615,
        },
        27 => Quadratic {
            constant: 1.1924240048301715,
            slope: 0.41931040939002673,
            bend: 0.07312255744583934,
        },
        28 => Quadratic {
            constant: 1.198957883805052,
            slope: 0.41702539746473777,
            bend: 0.07193998600165576,
        },
        29 => Quadratic {
            constant: 1.2054563480219276,
            slope: 0.41477733837224395,
            bend: 0.07078894966341187,
        },
        30 => Quadratic {
            constant: 1.2119199671757355,
            slope: 0.4125652467597584,
            bend: 0.0696682835521242,
        },
        31 => Quadratic {
            constant: 1.2183492958493913,
            slope: 0.4103881736701475,
            bend: 0.0685768775347297,
        },
        32 => Quadratic {
            constant: 1.224744874069122,
            slope: 0.40824520483157617,
            bend: 0.0675136731119377,
        },
        33 => Quadratic {
            constant: 1.231107227833831,
            slope: 0.40613545904437354,
            bend: 0.06647766051302614,
        },
        34 => Quadratic {
            constant: 1.2374368696199696,
            slope: 0.40405808665865356,
            bend: 0.06546787598186464,
        },
        35 => Quadratic {
            constant: 1.2437342988632802,
            slope: 0.4020122681367195,
            bend: 0.06448339923978691,
        },
        36 => Quadratic {
            constant: 1.250000002418697,
            slope: 0.39999721269472555,
            bend: 0.0635233511121474,
        },
        37 => Quadratic {
            constant: 1.256234454999601,
            slope: 0.39801215701848575,
            bend: 0.06258689130649729,
        },
        38 => Quadratic {
            constant: 1.2624381195975516,
            slope: 0.3960563640486909,
            bend: 0.061673216331312765,
        },
        39 => Quadratic {
            constant: 1.2686114478835437,
            slope: 0.3941291218311458,
            bend: 0.060781557545115154,
        },
        40 => Quadratic {
            constant: 1.2747548805917774,
            slope: 0.392229742427952,
            bend: 0.059911179326647274,
        },
        41 => Quadratic {
            constant: 1.2808688478868582,
            slope: 0.39035756088585527,
            bend: 0.059061377357520296,
        },
        42 => Quadratic {
            constant: 1.2869537697152986,
            slope: 0.38851193425824415,
            bend: 0.05823147700942947,
        },
        43 => Quadratic {
            constant: 1.293010056142132,
            slope: 0.3866922406775336,
            bend: 0.057420831828660014,
        },
        44 => Quadratic {
            constant: 1.2990381076733994,
            slope: 0.3848978784748936,
            bend: 0.05662882211117373,
        },
        45 => Quadratic {
            constant: 1.3050383155652325,
            slope: 0.3831282653444946,
            bend: 0.05585485356208624,
        },
        46 => Quadratic {
            constant: 1.3110110621202031,
            slope: 0.3813828375496318,
            bend: 0.055098356033819955,
        },
        47 => Quadratic {
            constant: 1.3169567209715762,
            slope: 0.37966104916827187,
            bend: 0.05435878233765268,
        },
        48 => Quadratic {
            constant: 1.3228756573560652,
            slope: 0.3779623713757288,
            bend: 0.0536356071237795,
        },
        49 => Quadratic {
            constant: 1.3287682283756508,
            slope: 0.3762862917623287,
            bend: 0.05292832582537087,
        },
        50 => Quadratic {
            constant: 1.334634783248998,
            slope: 0.37463231368406397,
            bend: 0.052236453662443894,
        },
        51 => Quadratic {
            constant: 1.340475663552967,
            slope: 0.3729999556443689,
            bend: 0.05155952470167151,
        },
        52 => Quadratic {
            constant: 1.3462912034546966,
            slope: 0.37138875070526883,
            bend: 0.05089709096853593,
        },
        53 => Quadratic {
            constant: 1.3520817299347008,
            slope: 0.3697982459262676,
            bend: 0.05024872160849255,
        },
        54 => Quadratic {
            constant: 1.357847563001405,
            slope: 0.36822800182944243,
            bend: 0.04961400209404871,
        },
        55 => Quadratic {
            constant: 1.363589015897516,
            slope: 0.36667759188931187,
            bend: 0.04899253347488189,
        },
        56 => Quadratic {
            constant: 1.3693063952986033,
            slope: 0.3651466020461317,
            bend: 0.04838393166832391,
        },
        57 => Quadratic {
            constant: 1.3750000015042518,
            slope: 0.36363463024135856,
            bend: 0.04778782678772468,
        },
        58 => Quadratic {
            constant: 1.380670128622117,
            slope: 0.3621412859740971,
            bend: 0.04720386250638097,
        },
        59 => Quadratic {
            constant: 1.3863170647452052,
            slope: 0.36066618987742044,
            bend: 0.04663169545487486,
        },
        60 => Quadratic {
            constant: 1.3919410921226825,
            slope: 0.3592089733135191,
            bend: 0.046070994649813166,
        },
        61 => Quadratic {
            constant: 1.397542487324495,
            slope: 0.35776927798669844,
            bend: 0.04552144095209516,
        },
        62 => Quadratic {
            constant: 1.4031215214000763,
            slope: 0.3563467555733017,
            bend: 0.04498272655296125,
        },
        63 => Quadratic {
            constant: 1.408678460031396,
            slope: 0.3549410673676902,
            bend: 0.044454554486191705,
        },
        64 => Quadratic {
            constant: 1.4142135727573375,
            slope: 0.35354740603016466,
            bend: 0.04368190050513307,
        },
        65 => Quadratic {
            constant: 1.425219291365597,
            slope: 0.3508174494491565,
            bend: 0.042685361318051764,
        },
        66 => Quadratic {
            constant: 1.436140671254081,
            slope: 0.3481497681268257,
            bend: 0.04172614538483632,
        },
        67 => Quadratic {
            constant: 1.4469796221153663,
            slope: 0.34554202991623245,
            bend: 0.040802324587120894,
        },
        68 => Quadratic {
            constant: 1.4577379826427987,
            slope: 0.34299202313365057,
            bend: 0.03991209700906953,
        },
        69 => Quadratic {
            constant: 1.4684175241719246,
            slope: 0.3404976486749964,
            bend: 0.039053776986066345,
        },
        70 => Quadratic {
            constant: 1.4790199540852635,
            slope: 0.3380569127537849,
            bend: 0.03822578606764541,
        },
        71 => Quadratic {
            constant: 1.4895469189989476,
            slope: 0.33566792020352326,
            bend: 0.03742664479909685,
        },
        72 => Quadratic {
            constant: 1.5000000077480746,
            slope: 0.3333288682934177,
            bend: 0.036654965237351136,
        },
        73 => Quadratic {
            constant: 1.5103807541860947,
            slope: 0.33103804101154133,
            bend: 0.03590944412647039,
        },
        74 => Quadratic {
            constant: 1.5206906398121995,
            slope: 0.32879380377427,
            bend: 0.0351888566665666,
        },
        75 => Quadratic {
            constant: 1.5309310962394556,
            slope: 0.3265945985249261,
            bend: 0.03449205081739248,
        },
        76 => Quadratic {
            constant: 1.5411035075153232,
            slope: 0.3244389391882402,
            bend: 0.033817942084357754,
        },
        77 => Quadratic {
            constant: 1.55120921230521,
            slope: 0.32232540745050003,
            bend: 0.0331655087404352,
        },
        78 => Quadratic {
            constant: 1.5612495059488118,
            slope: 0.3202526488381656,
            bend: 0.03253378744244398,
        },
        79 => Quadratic {
            constant: 1.5712256423981865,
            slope: 0.3182193690703171,
            bend: 0.03192186920462183,
        },
        80 => Quadratic {
            constant: 1.5811388360457623,
            slope: 0.3162243306626227,
            bend: 0.031328895696302046,
        },
        81 => Quadratic {
            constant: 1.5909902634498354,
            slope: 0.31426634976258166,
            bend: 0.03075405583396105,
        },
        82 => Quadratic {
            constant: 1.6007810649644865,
            slope: 0.31234429319765844,
            bend: 0.030196582640957058,
        },
        83 => Quadratic {
            constant: 1.6105123462803177,
            slope: 0.3104570757195862,
            bend: 0.029655750350987643,
        },
        84 => Quadratic {
            constant: 1.620185179881894,
            slope: 0.308603657429618,
            bend: 0.029130871733698466,
        },
        85 => Quadratic {
            constant: 1.6298006064273347,
            slope: 0.3067830413708496,
            bend: 0.028621295623013347,
        },
        86 => Quadratic {
            constant: 1.6393596360550726,
            slope: 0.3049942712749508,
            bend: 0.028126404630659477,
        },
        87 => Quadratic {
            constant: 1.6488632496224291,
            slope: 0.3032364294517383,
            bend: 0.02764561302905935,
        },
        88 => Quadratic {
            constant: 1.6583123998803029,
            slope: 0.30150863481100965,
            bend: 0.027178364789276935,
        },
        89 => Quadratic {
            constant: 1.6677080125879535,
            slope: 0.2998100410069539,
            bend: 0.026724131761060973,
        },
        90 => Quadratic {
            constant: 1.677050987571573,
            slope: 0.2981398346962622,
            bend: 0.02628241198324206,
        },
        91 => Quadratic {
            constant: 1.6863421997300694,
            slope: 0.29649723390179533,
            bend: 0.025852728113827935,
        },
        92 => Quadratic {
            constant: 1.6955824999912499,
            slope: 0.2948814864743313,
            bend: 0.025434625970118044,
        },
        93 => Quadratic {
            constant: 1.7047727162213517,
            slope: 0.29329186864552087,
            bend: 0.025027673170035854,
        },
        94 => Quadratic {
            constant: 1.7139136540906812,
            slope: 0.2917276836657265,
            bend: 0.02463145786666712,
        },
        95 => Quadratic {
            constant: 1.7230060978979198,
            slope: 0.29018826052092384,
            bend: 0.02424558756870339,
        },
        96 => Quadratic {
            constant: 1.7320508113554807,
            slope: 0.2886729527232986,
            bend: 0.023869688040131516,
        },
        97 => Quadratic {
            constant: 1.7410485383381478,
            slope: 0.28718113717058785,
            bend: 0.02350340227308898,
        },
        98 => Quadratic {
            constant: 1.7500000035970684,
            slope: 0.2857122130695956,
            bend: 0.023146389528328197,
        },
        99 => Quadratic {
            constant: 1.7589059134410432,
            slope: 0.28426560091965897,
            bend: 0.022798324438206397,
        },
        100 => Quadratic {
            constant: 1.767766956386923,
            slope: 0.2828407415521582,
            bend: 0.022458896167546722,
        },
        101 => Quadratic {
            constant: 1.7765838037808093,
            slope: 0.2814370952224562,
            bend: 0.022127807628104807,
        },
        102 => Quadratic {
            constant: 1.7853571103916448,
            slope: 0.2800541407509173,
            bend: 0.021804774742728093,
        },
        103 => Quadratic {
            constant: 1.7940875149786766,
            slope: 0.27869137470990213,
            bend: 0.021489525755615645,
        },
        104 => Quadratic {
            constant: 1.802775640834187,
            slope: 0.27734831065385773,
            bend: 0.021181800585377792,
        },
        105 => Quadratic {
            constant: 1.8114220963027958,
            slope: 0.27602447838982885,
            bend: 0.02088135021786011,
        },
        106 => Quadratic {
            constant: 1.8200274752785564,
            slope: 0.2747194232859066,
            bend: 0.020587936135938057,
        },
        107 => Quadratic {
            constant: 1.8285923576810001,
            slope: 0.2734327056153045,
            bend: 0.02030132978370892,
        },
        108 => Quadratic {
            constant: 1.8371173099112024,
            slope: 0.272163899933913,
            bend: 0.020021312062708824,
        },
        109 => Quadratic {
            constant: 1.8456028852888908,
            slope: 0.2709125944893311,
            bend: 0.019747672857966386,
        },
        110 => Quadratic {
            constant: 1.8540496244715474,
            slope: 0.2696783906595121,
            bend: 0.01948021059187241,
        },
        111 => Quadratic {
            constant: 1.8624580558564028,
            slope: 0.2684609024192843,
            bend: 0.019218731803998867,
        },
        112 => Quadratic {
            constant: 1.8708286959661706,
            slope: 0.26725975583312606,
            bend: 0.01896305075514099,
        },
        113 => Quadratic {
            constant: 1.8791620498193156,
            slope: 0.26607458857268235,
            bend: 0.018712989053985406,
        },
        114 => Quadratic {
            constant: 1.887458611285609,
            slope: 0.26490504945760746,
            bend: 0.018468375304925472,
        },
        115 => Quadratic {
            constant: 1.8957188634276798,
            slope: 0.26375079801841467,
            bend: 0.018229044775653614,
        },
        116 => Quadratic {
            constant: 1.9039432788292276,
            slope: 0.26261150408009576,
            bend: 0.01799483908326017,
        },
        117 => Quadratic {
            constant: 1.9121323199105302,
            slope: 0.2614868473653544,
            bend: 0.017765605897660044,
        },
        118 => Quadratic {
            constant: 1.9202864392318426,
            slope: 0.26037651711637116,
            bend: 0.017541198661252706,
        },
        119 => Quadratic {
            constant: 1.928406079785249,
            slope: 0.25928021173408583,
            bend: 0.01732147632379896,
        },
        120 => Quadratic {
            constant: 1.9364916752754993,
            slope: 0.2581976384340454,
            bend: 0.017106303091569193,
        },
        121 => Quadratic {
            constant: 1.944543650390339,
            slope: 0.25712851291792743,
            bend: 0.016895548189884136,
        },
        122 => Quadratic {
            constant: 1.9525624210608035,
            slope: 0.25607255905990084,
            bend: 0.016689085638229705,
        },
        123 => Quadratic {
            constant: 1.9605483947119293,
            slope: 0.25502950860703893,
            bend: 0.01648679403718396,
        },
        124 => Quadratic {
            constant: 1.9685019705043152,
            slope: 0.2539991008930469,
            bend: 0.016288556366446022,
        },
        125 => Quadratic {
            constant: 1.9764235395669303,
            slope: 0.2529810825646095,
            bend: 0.016094259793304748,
        },
        126 => Quadratic {
            constant: 1.984313485221559,
            slope: 0.2519752073197068,
            bend: 0.015903795490929535,
        },
        _ => Quadratic {
            constant: 1.992172183199246,
            slope: 0.250981235657285,
            bend: 0.015717058465906507,
        },
    }
}
