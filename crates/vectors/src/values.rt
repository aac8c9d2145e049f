//! Values of the base: checksum, digest, UUID texts.
use base_core::{Guid, crc32, le32_at, put_le32, sealed};
use sha2::{Digest, Sha256};

// The check value of the CRC-32 with the reflected polynomial 0xEDB88320.
#[test]
fn checksum_of_the_digits(rt: HostRuntime) {
    assert_eq!(rt; crc32(b"123456789"), 0xCBF4_3926);
    assert_eq!(rt; crc32(b""), 0);
}

// FIPS 180-4, the example of one block.
#[test]
fn digest_of_abc(rt: HostRuntime) {
    let digest = Sha256::digest(b"abc");
    assert_eq!(rt; digest[0], 0xBA);
    assert_eq!(rt; le32_at(&digest, 28), 0xAD15_00F2);
}

// The text of the type of the trusted boot firmware in packages of Trusted Firmware-A.
#[test]
fn uuid_reads_and_writes(rt: HostRuntime) {
    let guid = Guid::read("5FF9EC0B-4d22-3e4d-a544-c39d81c73f0a").expect(&rt, "a UUID");
    assert_eq!(rt; guid.bytes()[0], 0x5F);
    assert_eq!(rt; guid.bytes()[15], 0x0A);
    let mut text = [0; 36];
    guid.text(&mut text);
    assert!(rt; &text == b"5ff9ec0b-4d22-3e4d-a544-c39d81c73f0a");
    assert!(rt; Guid::read("5ff9ec0b4d223e4da544c39d81c73f0a").is_none());
}

// A block of 32 bytes with its own seal. It has a size of 32 at 16, and the checksum of the bytes
// behind it in front, by zlib. checks/model/check_vectors.py makes it again.
#[test]
fn seals_are_found(rt: HostRuntime) {
    let mut block = [0; 32];
    put_le32(&mut block, 16, 32);
    assert!(rt; !sealed(&block));
    put_le32(&mut block, 0, 0x974F_0C94);
    assert!(rt; sealed(&block));
}
