// The vectors of RFC 8439, in its own order: the quarter round's of 2.1.1 and 2.2.1, the block function's
// of 2.3.2 and appendix A.1, and the encryption's of 2.4.2 and A.2, the counter as the RFC counts, in blocks.
use crate::{apply, array, report};
use replay_lists::cases::Fields;
use std::io;

// Room for a message.
const ROOM: usize = 4096;

// A vector's name, and what both functions take: the key and the nonce in hexadecimal, and the counter.
struct Vector<'a> {
    name: &'a str,
    key: &'a [u8],
    counter: u32,
    nonce: &'a [u8],
}

impl Vector<'_> {
    fn replay_block(&self, rt: &impl Print, expected: &[u8]) -> io::Result<()> {
        report(rt, self.name, self.is_block(expected) == Some(true))
    }

    fn is_block(&self, expected: &[u8]) -> Option<bool> {
        let key = array(self.key)?;
        let nonce = array(self.nonce)?;
        Some(chacha20::block(&key, self.counter, &nonce) == array(expected)?)
    }

    fn replay_message(&self, rt: &impl Print, message: &[u8], expected: &[u8]) -> io::Result<()> {
        report(
            rt,
            self.name,
            self.is_message(message, expected) == Some(true),
        )
    }

    // Whether the message goes to what is expected, with the position after it as the answer, and back again. None too where it
    // has no room.
    fn is_message(&self, message: &[u8], expected: &[u8]) -> Option<bool> {
        let key = array(self.key)?;
        let nonce = array(self.nonce)?;
        let mut room = [0; ROOM];
        let text = room.get_mut(..message.len())?;
        text.copy_from_slice(message);
        let mut room = [0; ROOM];
        let expected = Fields::of(expected).bytes(&mut room)?;
        let from = 64 * u64::from(self.counter);
        let next = apply(&key, &nonce, from, text)?;
        let is_encrypted = &*text == expected;
        apply(&key, &nonce, from, text)?;
        Some(is_encrypted && &*text == message && next == from + message.len() as u64)
    }
}

// 2.2.1's is on the words 2, 7, 8 and 13 of its state.
pub fn quarter_rounds(rt: &impl Print) -> io::Result<()> {
    let words = chacha20::quarter(0x1111_1111, 0x0102_0304, 0x9b8d_6f43, 0x0123_4567);
    let expected = [0xea2a_92f4, 0xcb1c_f8ce, 0x4581_472e, 0x5881_c4bb];
    report(rt, "rfc 8439 2.1.1", words == expected)?;
    let words = chacha20::quarter(0x5164_61b1, 0x2a5f_714c, 0x5337_2767, 0x3d63_1689);
    let expected = [0xbdb8_86dc, 0xcfac_afd2, 0xe46b_ea80, 0xccc0_7c79];
    report(rt, "rfc 8439 2.2.1", words == expected)
}

// A call for each vector, here and below: a list of them with a loop is hardly shorter, and needs pairs for the messages.
pub fn blocks(rt: &impl Print) -> io::Result<()> {
    Vector {
        name: "rfc 8439 2.3.2",
        key: b"000102030405060708090a0b0c0d0e0f101112131415161718191a1b1c1d1e1f",
        counter: 1,
        nonce: b"000000090000004a00000000",
    }
    .replay_block(
        rt,
        b"10f1e7e4d13b5915500fdd1fa32071c4c7d1f4c733c068030422aa9ac3d46c4ed2826446079faa0914c2d705d98b02a2b5129cd1de164eb9cbd083e8a2503c4e",
    )?;
    Vector {
        name: "rfc 8439 A.1 #1",
        key: b"0000000000000000000000000000000000000000000000000000000000000000",
        counter: 0,
        nonce: b"000000000000000000000000",
    }
    .replay_block(
        rt,
        b"76b8e0ada0f13d90405d6ae55386bd28bdd219b8a08ded1aa836efcc8b770dc7da41597c5157488d7724e03fb8d84a376a43b8f41518a11cc387b669b2ee6586",
    )?;
    Vector {
        name: "rfc 8439 A.1 #2",
        key: b"0000000000000000000000000000000000000000000000000000000000000000",
        counter: 1,
        nonce: b"000000000000000000000000",
    }
    .replay_block(
        rt,
        b"9f07e7be5551387a98ba977c732d080dcb0f29a048e3656912c6533e32ee7aed29b721769ce64e43d57133b074d839d531ed1f28510afb45ace10a1f4b794d6f",
    )?;
    Vector {
        name: "rfc 8439 A.1 #3",
        key: b"0000000000000000000000000000000000000000000000000000000000000001",
        counter: 1,
        nonce: b"000000000000000000000000",
    }
    .replay_block(
        rt,
        b"3aeb5224ecf849929b9d828db1ced4dd832025e8018b8160b82284f3c949aa5a8eca00bbb4a73bdad192b5c42f73f2fd4e273644c8b36125a64addeb006c13a0",
    )?;
    Vector {
        name: "rfc 8439 A.1 #4",
        key: b"00ff000000000000000000000000000000000000000000000000000000000000",
        counter: 2,
        nonce: b"000000000000000000000000",
    }
    .replay_block(
        rt,
        b"72d54dfbf12ec44b362692df94137f328fea8da73990265ec1bbbea1ae9af0ca13b25aa26cb4a648cb9b9d1be65b2c0924a66c54d545ec1b7374f4872e99f096",
    )?;
    Vector {
        name: "rfc 8439 A.1 #5",
        key: b"0000000000000000000000000000000000000000000000000000000000000000",
        counter: 0,
        nonce: b"000000000000000000000002",
    }
    .replay_block(
        rt,
        b"c2c64d378cd536374ae204b9ef933fcd1a8b2288b3dfa49672ab765b54ee27c78a970e0e955c14f3a88e741b97c286f75f8fc299e8148362fa198a39531bed6d",
    )
}

pub fn messages(rt: &impl Print) -> io::Result<()> {
    Vector {
        name: "rfc 8439 2.4.2",
        key: b"000102030405060708090a0b0c0d0e0f101112131415161718191a1b1c1d1e1f",
        counter: 1,
        nonce: b"000000000000004a00000000",
    }
    .replay_message(
        rt,
        b"Ladies and Gentlemen of the class of '99: If I could offer you only one tip for the future, sunscreen would be it.",
        b"6e2e359a2568f98041ba0728dd0d6981e97e7aec1d4360c20a27afccfd9fae0bf91b65c5524733ab8f593dabcd62b3571639d624e65152ab8f530c359f0861d807ca0dbf500d6a6156a38e088a22b65e52bc514d16ccf806818ce91ab77937365af90bbf74a35be6b40b8eedf2785e42874d",
    )?;
    Vector {
        name: "rfc 8439 A.2 #1",
        key: b"0000000000000000000000000000000000000000000000000000000000000000",
        counter: 0,
        nonce: b"000000000000000000000000",
    }
    .replay_message(
        rt,
        &[0; 64],
        b"76b8e0ada0f13d90405d6ae55386bd28bdd219b8a08ded1aa836efcc8b770dc7da41597c5157488d7724e03fb8d84a376a43b8f41518a11cc387b669b2ee6586",
    )?;
    Vector {
        name: "rfc 8439 A.2 #2",
        key: b"0000000000000000000000000000000000000000000000000000000000000001",
        counter: 1,
        nonce: b"000000000000000000000002",
    }
    .replay_message(
        rt,
        b"Any submission to the IETF intended by the Contributor for publication as all or part of an IETF Internet-Draft or RFC and any statement made within the context of an IETF activity is considered an \"IETF Contribution\". Such statements include oral statements in IETF sessions, as well as written and electronic communications made at any time or place, which are addressed to",
        b"a3fbf07df3fa2fde4f376ca23e82737041605d9f4f4f57bd8cff2c1d4b7955ec2a97948bd3722915c8f3d337f7d370050e9e96d647b7c39f56e031ca5eb6250d4042e02785ececfa4b4bb5e8ead0440e20b6e8db09d881a7c6132f420e52795042bdfa7773d8a9051447b3291ce1411c680465552aa6c405b7764d5e87bea85ad00f8449ed8f72d0d662ab052691ca66424bc86d2df80ea41f43abf937d3259dc4b2d0dfb48a6c9139ddd7f76966e928e635553ba76c5c879d7b35d49eb2e62b0871cdac638939e25e8a1e0ef9d5280fa8ca328b351c3c765989cbcf3daa8b6ccc3aaf9f3979c92b3720fc88dc95ed84a1be059c6499b9fda236e7e818b04b0bc39c1e876b193bfe5569753f88128cc08aaa9b63d1a16f80ef2554d7189c411f5869ca52c5b83fa36ff216b9c1d30062bebcfd2dc5bce0911934fda79a86f6e698ced759c3ff9b6477338f3da4f9cd8514ea9982ccafb341b2384dd902f3d1ab7ac61dd29c6f21ba5b862f3730e37cfdc4fd806c22f221",
    )?;
    Vector {
        name: "rfc 8439 A.2 #3",
        key: b"1c9240a5eb55d38af333888604f6b5f0473917c1402b80099dca5cbc207075c0",
        counter: 42,
        nonce: b"000000000000000000000002",
    }
    .replay_message(
        rt,
        b"'Twas brillig, and the slithy toves\nDid gyre and gimble in the wabe:\nAll mimsy were the borogoves,\nAnd the mome raths outgrabe.",
        b"62e6347f95ed87a45ffae7426f27a1df5fb69110044c0d73118effa95b01e5cf166d3df2d721caf9b21e5fb14c616871fd84c54f9d65b283196c7fe4f60553ebf39c6402c42234e32a356b3e764312a61a5532055716ead6962568f87d3f3f7704c6a8d1bcd1bf4d50d6154b6da731b187b58dfd728afa36757a797ac188d1",
    )
}
