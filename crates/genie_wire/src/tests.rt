use super::*;
use std::test::*;

const PLAIN: [u8; 8] = [0x47, 0x44, 0x01, 0x05, 0, 0, 0, 0x20];

const FLOWING: [u8; 12] = [0x47, 0x45, 0, 5, 0, 0, 0x10, 1, 0x80, 0, 0, 7];

#[test]
fn headers(rt: HostRuntime) {
    let plain = Header {
        port: 261,
        flow: None,
        len: 32,
    };
    let flowing = Header {
        port: 5,
        flow: Some(0x8000_0007),
        len: 4097,
    };
    assert_eq!(rt; read_header(&PLAIN, 32), Ok(plain));
    assert_eq!(rt; read_header(&PLAIN, 31), Err(BadHeader));
    assert_eq!(rt; read_header(&FLOWING, 4097), Ok(flowing));
    assert_eq!(rt; read_header(&FLOWING, 4096), Err(BadHeader));
    assert_eq!(rt;
        read_header(&[0x48, 0x44, 0, 5, 0, 0, 0, 0], 9),
        Err(BadHeader)
    );
    assert_eq!(rt;
        read_header(&[0x47, 0x46, 0, 5, 0, 0, 0, 0], 9),
        Err(BadHeader)
    );
    assert_eq!(rt; write_header(&plain).as_slice(), PLAIN.as_slice());
    assert_eq!(rt; write_header(&flowing).as_slice(), FLOWING.as_slice());
    for (first, second, size) in [(0x47, 0x45, 12), (0x47, 0x44, 8), (0x45, 0x47, 8)] {
        assert_eq!(rt; header_size(first, second), size);
    }
    headers_read_back();
}
