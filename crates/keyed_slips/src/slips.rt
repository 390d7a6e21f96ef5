// Slips of two tills, computed by a model of the rules that shares no code with this repository, over AES, FF1, GMAC and CMAC of
// implementations of others. Numbers are drawn in order and all issued.
use crate::comparing::SlipVector;
use sale::orders::{PriceList, Sale};

pub(crate) const GMAC_CIPHER_KEY: [u8; 16] = [
    0xda, 0xe6, 0x83, 0xb2, 0xb0, 0x7d, 0xe3, 0xed, 0x55, 0x14, 0x0b, 0xc3, 0x3a, 0xed, 0x67, 0x6e,
];

pub(crate) const GMAC_KEY: [u8; 16] = [
    0x66, 0xe7, 0x51, 0xeb, 0x11, 0x67, 0xf0, 0x91, 0xd0, 0x14, 0xe3, 0x7d, 0x44, 0xca, 0x27, 0xe4,
];

pub(crate) const GMAC_SLIPS: [SlipVector; 8] = [
    SlipVector {
        sale: Sale {
            subclass: 0,
            config: 0,
            amt: 1695,
            prices: None,
        },
        digits: b"73943050084219668464",
    },
    SlipVector {
        sale: Sale {
            subclass: 8,
            config: 0,
            amt: 6470,
            prices: None,
        },
        digits: b"86066317991141961443",
    },
    SlipVector {
        sale: Sale {
            subclass: 10,
            config: 0,
            amt: 5992,
            prices: Some(PriceList {
                complete: true,
                month: 63,
                multiplier: 5,
                count: 2,
                prices: [4525, 1950, 0, 0, 0, 0, 0, 0],
                size: 2,
            }),
        },
        digits: b"8918130680054226319204598377039903078343",
    },
    SlipVector {
        sale: Sale {
            subclass: 8,
            config: 0,
            amt: 4370,
            prices: None,
        },
        digits: b"86000504834086193039",
    },
    SlipVector {
        sale: Sale {
            subclass: 10,
            config: 2,
            amt: 4184,
            prices: Some(PriceList {
                complete: false,
                month: 20,
                multiplier: 5,
                count: 1,
                prices: [2227, 0, 0, 0, 0, 0, 0, 0],
                size: 1,
            }),
        },
        digits: b"8951087828521267726304632232987446167880",
    },
    SlipVector {
        sale: Sale {
            subclass: 10,
            config: 0,
            amt: 2237,
            prices: Some(PriceList {
                complete: true,
                month: 25,
                multiplier: 2,
                count: 8,
                prices: [3636, 3991, 881, 2987, 2252, 1251, 2856, 222],
                size: 1,
            }),
        },
        digits: b"89306799940850463089171724891855032625530732499744753460099902882684941878471586",
    },
    SlipVector {
        sale: Sale {
            subclass: 0,
            config: 0,
            amt: 7227,
            prices: None,
        },
        digits: b"73951731970915872883",
    },
    SlipVector {
        sale: Sale {
            subclass: 8,
            config: 0,
            amt: 2754,
            prices: None,
        },
        digits: b"85933534014649813532",
    },
];

pub(crate) const CMAC_CIPHER_KEY: [u8; 16] = [
    0x4d, 0x04, 0x43, 0xf7, 0x68, 0x49, 0xb4, 0x72, 0x65, 0x0e, 0x7e, 0xe6, 0xf4, 0x1e, 0x86, 0xc7,
];

pub(crate) const CMAC_KEY: [u8; 16] = [
    0x16, 0x73, 0x22, 0x81, 0x2b, 0x64, 0xb7, 0x57, 0xaa, 0xd9, 0x26, 0x6d, 0x37, 0x11, 0x62, 0x0c,
];

pub(crate) const CMAC_SLIPS: [SlipVector; 8] = [
    SlipVector {
        sale: Sale {
            subclass: 0,
            config: 0,
            amt: 4346,
            prices: None,
        },
        digits: b"73943163975681106551",
    },
    SlipVector {
        sale: Sale {
            subclass: 8,
            config: 1,
            amt: 7965,
            prices: None,
        },
        digits: b"86527019226451847437",
    },
    SlipVector {
        sale: Sale {
            subclass: 10,
            config: 0,
            amt: 3516,
            prices: Some(PriceList {
                complete: false,
                month: 30,
                multiplier: 5,
                count: 8,
                prices: [3841, 7661, 6617, 8105, 3959, 1496, 4366, 1233],
                size: 2,
            }),
        },
        digits: b"89165106022748894952154091676802919245090978877499199707401403757754008404582071",
    },
    SlipVector {
        sale: Sale {
            subclass: 8,
            config: 1,
            amt: 7902,
            prices: None,
        },
        digits: b"86026851392517842155",
    },
    SlipVector {
        sale: Sale {
            subclass: 10,
            config: 1,
            amt: 660,
            prices: Some(PriceList {
                complete: false,
                month: 54,
                multiplier: 3,
                count: 6,
                prices: [1774, 220, 1812, 1917, 237, 1790, 0, 0],
                size: 0,
            }),
        },
        digits: b"894688540275546295851053111648691447357502301716090767214823",
    },
    SlipVector {
        sale: Sale {
            subclass: 10,
            config: 1,
            amt: 1786,
            prices: Some(PriceList {
                complete: true,
                month: 57,
                multiplier: 4,
                count: 8,
                prices: [3418, 3331, 3210, 844, 537, 497, 1448, 2994],
                size: 1,
            }),
        },
        digits: b"88709645306888415057143951406613962895501053240687440746846904852520733049220462",
    },
    SlipVector {
        sale: Sale {
            subclass: 0,
            config: 0,
            amt: 6212,
            prices: None,
        },
        digits: b"73951688349569041961",
    },
    SlipVector {
        sale: Sale {
            subclass: 8,
            config: 1,
            amt: 3580,
            prices: None,
        },
        digits: b"86399261746207343167",
    },
];
