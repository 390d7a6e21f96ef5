// Values that standards publish.
use crate::blocks::BlockVector;
use crate::numerals::NumeralVector;
use crate::tags::{GmacVector, MessageVector};

// AES-128: the examples of FIPS 197 (appendices C.1 and B) and the four blocks of the ECB example of SP 800-38A.
pub(crate) const BLOCKS: [BlockVector; 6] = [
    BlockVector {
        key: 0x000102030405060708090a0b0c0d0e0f,
        block: 0x00112233445566778899aabbccddeeff,
        enciphered: 0x69c4e0d86a7b0430d8cdb78070b4c55a,
    },
    BlockVector {
        key: 0x2b7e151628aed2a6abf7158809cf4f3c,
        block: 0x3243f6a8885a308d313198a2e0370734,
        enciphered: 0x3925841d02dc09fbdc118597196a0b32,
    },
    BlockVector {
        key: 0x2b7e151628aed2a6abf7158809cf4f3c,
        block: 0x6bc1bee22e409f96e93d7e117393172a,
        enciphered: 0x3ad77bb40d7a3660a89ecaf32466ef97,
    },
    BlockVector {
        key: 0x2b7e151628aed2a6abf7158809cf4f3c,
        block: 0xae2d8a571e03ac9c9eb76fac45af8e51,
        enciphered: 0xf5d3d58503b9699de785895a96fdbaaf,
    },
    BlockVector {
        key: 0x2b7e151628aed2a6abf7158809cf4f3c,
        block: 0x30c81c46a35ce411e5fbc1191a0a52ef,
        enciphered: 0x43b1cd7f598ece23881b00e3ed030688,
    },
    BlockVector {
        key: 0x2b7e151628aed2a6abf7158809cf4f3c,
        block: 0xf69f2445df4f9b17ad2b417be66c3710,
        enciphered: 0x7b0c785e27e8ad3f8223207104725dd4,
    },
];

// CMAC over AES-128: the examples of SP 800-38B, with the first 0, 16, 40 and 64 bytes of one message.
pub(crate) const MESSAGES: [MessageVector; 4] = [
    MessageVector {
        key: 0x2b7e151628aed2a6abf7158809cf4f3c,
        message: b"",
        tag: 0xbb1d6929e95937287fa37d129b756746,
    },
    MessageVector {
        key: 0x2b7e151628aed2a6abf7158809cf4f3c,
        message: b"\x6b\xc1\xbe\xe2\x2e\x40\x9f\x96\xe9\x3d\x7e\x11\x73\x93\x17\x2a",
        tag: 0x070a16b46b4d4144f79bdd9dd04a287c,
    },
    MessageVector {
        key: 0x2b7e151628aed2a6abf7158809cf4f3c,
        message: b"\x6b\xc1\xbe\xe2\x2e\x40\x9f\x96\xe9\x3d\x7e\x11\x73\x93\x17\x2a\xae\x2d\x8a\x57\x1e\x03\xac\x9c\x9e\xb7\x6f\xac\x45\xaf\x8e\x51\x30\xc8\x1c\x46\xa3\x5c\xe4\x11",
        tag: 0xdfa66747de9ae63030ca32611497c827,
    },
    MessageVector {
        key: 0x2b7e151628aed2a6abf7158809cf4f3c,
        message: b"\x6b\xc1\xbe\xe2\x2e\x40\x9f\x96\xe9\x3d\x7e\x11\x73\x93\x17\x2a\xae\x2d\x8a\x57\x1e\x03\xac\x9c\x9e\xb7\x6f\xac\x45\xaf\x8e\x51\x30\xc8\x1c\x46\xa3\x5c\xe4\x11\xe5\xfb\xc1\x19\x1a\x0a\x52\xef\xf6\x9f\x24\x45\xdf\x4f\x9b\x17\xad\x2b\x41\x7b\xe6\x6c\x37\x10",
        tag: 0x51f0bebf7e3b9d92fc49741779363cfe,
    },
];

// GMAC over AES-128: the first test case of the GCM submission to NIST, and two of NIST's validation suite for GCM with a nonce of 96 bits
// and no plaintext.
pub(crate) const GMAC_PUBLISHED: [GmacVector; 3] = [
    GmacVector {
        key: 0x00000000000000000000000000000000,
        nonce: b"\x00\x00\x00\x00\x00\x00\x00\x00\x00\x00\x00\x00",
        message: b"",
        tag: 0x58e2fccefa7e3061367f1d57a4e7455a,
    },
    GmacVector {
        key: 0x11754cd72aec309bf52f7687212e8957,
        nonce: b"\x3c\x81\x9d\x9a\x9b\xed\x08\x76\x15\x03\x0b\x65",
        message: b"",
        tag: 0x250327c674aaf477aef2675748cf6971,
    },
    GmacVector {
        key: 0x77be63708971c4e240d1cb79e8d77feb,
        nonce: b"\xe0\xe0\x0f\x19\xfe\xd7\xba\x01\x36\xa7\x97\xf3",
        message: b"\x7a\x43\xec\x1d\x9c\x0a\x5a\x78\xa0\xb1\x65\x33\xa6\x21\x3c\xab",
        tag: 0x209fcc8d3675ed938e9c7166709dd946,
    },
];

// FF1 over AES-128: NIST's samples 1 to 3 for SP 800-38G. The first two have radix 10, the third radix 36 with the letters as digits
// from 10 on. Numerals are written here as the numbers that they spell.
pub(crate) const NUMERALS: [NumeralVector; 3] = [
    NumeralVector {
        key: 0x2b7e151628aed2a6abf7158809cf4f3c,
        radix: 10,
        digits: 10,
        tweak: b"",
        plain: 123456789,
        enciphered: 2433477484,
    },
    NumeralVector {
        key: 0x2b7e151628aed2a6abf7158809cf4f3c,
        radix: 10,
        digits: 10,
        tweak: b"\x39\x38\x37\x36\x35\x34\x33\x32\x31\x30",
        plain: 123456789,
        enciphered: 6124200773,
    },
    NumeralVector {
        key: 0x2b7e151628aed2a6abf7158809cf4f3c,
        radix: 36,
        digits: 19,
        tweak: b"\x37\x37\x37\x37\x70\x71\x72\x73\x37\x37\x37",
        plain: 303117789996456554826277686,
        enciphered: 105960533319082831664419768174,
    },
];
