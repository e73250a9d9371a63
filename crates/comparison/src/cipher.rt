// Crates `chacha20` and `keystream`.
ghost use Rattle.std.specs.Prelude.{◌≡◌, length};
ghost use Rattle.chacha20.specs.Rfc8439.{chacha_block};
ghost use Rattle.keystream.specs.Apply.{applied_of, bytes_after, applied_number};
ghost use Rattle.comparison.specs.Cipher.{next_of};

#[unsafe(no_mangle)]
pub extern "C" fn vk_chacha20_block(
    key: &[u8; 32],
    counter: u32,
    nonce: &[u8; 12],
    bytes: &mut [u8; 64],
)
    ensures { bytes.new ≡ chacha_block key.now counter nonce.now }
{
    *bytes = chacha20::block(key, counter, nonce);
}

// 0 where the keystream was put onto the bytes, and `position` is then the next one; 14 where it ends too early.
#[unsafe(no_mangle)]
pub extern "C" fn vk_chacha20_apply(
    key: &[u8; 32],
    nonce: &[u8; 12],
    position: &mut u64,
    bytes: &mut [u8],
) -> u8
    ensures answer { result ≡ applied_number (applied_of position.old (length bytes.old)) }
    ensures next { position.new ≡ next_of position.old (applied_of position.old (length bytes.old)) }
    ensures lent { bytes.new ≡ bytes_after key.now nonce.now position.old bytes.old }
{
    let from = *position;
    let answer = keystream::apply(key, nonce, from, bytes);
    *position = answer.unwrap_or(from);
    keystream::number(answer)
}
