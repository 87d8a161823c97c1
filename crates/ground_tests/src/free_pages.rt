ghost use Rattle.std.specs.Prelude.{◌≡◌, ◌≤◌};

use page_alloc::FreeSet;
use std::alloc::AllocError;

fn give_back_all(set: &mut FreeSet, from: u64, to: u64)
    requires { to ≤ set.old.pages }
    ensures { set.new.pages ≡ set.old.pages }
{
    for page in from..to {
        if !set.is_free(page) {
            set.give_back(page);
        }
    }
}

#[test]
fn takes_the_least_page_first(rt: HostRuntime) -> Result<(), AllocError> {
    let mut set = FreeSet::none(rt.alloc(), 65536)?;
    assert_eq!(rt; set.take(), None);
    give_back_all(&mut set, 0, 65536);
    assert_eq!(rt; set.count(), 65536);
    for page in 0..65536 {
        assert_eq!(rt; set.take(), Some(page));
    }
    assert_eq!(rt; set.count(), 0);
    let mut few = FreeSet::none(rt.alloc(), 130)?;
    give_back_all(&mut few, 129, 130);
    give_back_all(&mut few, 63, 65);
    assert_eq!(rt;
        (few.is_free(64), few.is_free(65), few.is_free(130)),
        (true, false, false)
    );
    for page in [Some(63), Some(64), Some(129), None] {
        assert_eq!(rt; few.take(), page);
    }
    Ok(())
}
