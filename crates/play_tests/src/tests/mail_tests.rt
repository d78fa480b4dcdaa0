use super::mail_delivery::{Delivered, deliver};
use band_mail::BandMail;
use std::alloc::Global;
use std::sync::Wait;
use std::thread::Threads;

/// What a mail of one worker answers whose queue has one place, and what is left in it.
#[derive(Clone, Copy, PartialEq, Eq)]
struct Answers {
    takes: [Option<(u32, u32)>; 2],
    puts: [Result<(), u32>; 3],
    left: Option<(u32, u32)>,
}

// 7, 8 and 9 are put: one band is taken before the first, and one before the last.
fn answers_of_one_place<R: Wait>(rt: &R, alloc: Global) -> Option<Answers> {
    let Ok((mail, mut putters, mut taker)) = BandMail::<u32>::new(alloc, 1, 1) else {
        return None;
    };
    let before = mail.take(rt, &mut taker);
    let mut putter = putters.pop()?;
    let seven = mail.put(rt, &mut putter, 7);
    let eight = mail.put(rt, &mut putter, 8);
    let takes = [before, mail.take(rt, &mut taker)];
    let puts = [seven, eight, mail.put(rt, &mut putter, 9)];
    putters.push(putter).ok()?;
    let left = mail.close(rt, putters, taker);
    let left = match left.as_slice() {
        [band] => Some(*band),
        _ => None,
    };
    Some(Answers { takes, puts, left })
}

#[test]
fn full_queue_hands_back_and_close_hands_out_the_rest(rt: HostRuntime) {
    let want = Answers {
        takes: [None, Some((0, 7))],
        puts: [Ok(()), Err(8), Ok(())],
        left: Some((0, 9)),
    };
    assert!(rt; answers_of_one_place(&rt, rt.alloc()) == Some(want));
}

// Whether the second of two workers puts 5, and what is taken then, and after that.
fn takes_of_the_second<R: Wait>(rt: &R, alloc: Global) -> Option<(bool, [Option<(u32, u32)>; 2])> {
    let Ok((mail, mut putters, mut taker)) = BandMail::<u32>::new(alloc, 2, 2) else {
        return None;
    };
    let mut second = putters.pop()?;
    let put = mail.put(rt, &mut second, 5).is_ok();
    let takes = [mail.take(rt, &mut taker), mail.take(rt, &mut taker)];
    Some((put, takes))
}

#[test]
fn taken_band_names_its_worker(rt: HostRuntime) {
    let takes = [Some((1, 5)), None];
    assert!(rt; takes_of_the_second(&rt, rt.alloc()) == Some((true, takes)));
}

// How many bands of a worker there are, taken ones first, where they are the numbers from 0 in order.
fn numbers_in_order(all: &Delivered, worker: u32) -> Option<u32> {
    let mut count = 0u32;
    for (from, band) in all.taken.iter().chain(all.left.iter()) {
        if *from == worker {
            if *band != count {
                return None;
            }
            count = count.checked_add(1)?;
        }
    }
    Some(count)
}

// How many bands are taken, how many are left, and how many each of two workers put.
fn counts<R: Threads + Wait + Sync>(rt: &R, alloc: Global) -> Option<[u64; 4]> {
    let all = deliver(rt, alloc, 8, 2, 100, 195).ok()??;
    let workers = (numbers_in_order(&all, 0), numbers_in_order(&all, 1));
    let lengths = (all.taken.len() as u64, all.left.len() as u64);
    drop(all);
    Some([
        lengths.0,
        lengths.1,
        u64::from(workers.0?),
        u64::from(workers.1?),
    ])
}

// How many of 16 workers' bands are left, where so many are taken and each worker's 100 come in order.
fn left_of_sixteen<R: Threads + Wait + Sync>(rt: &R, alloc: Global, takes: usize) -> Option<usize> {
    let all = deliver(rt, alloc, 8, 16, 100, takes).ok()??;
    for worker in 0..16 {
        if numbers_in_order(&all, worker)? != 100 {
            return None;
        }
    }
    Some(all.left.len())
}

#[test]
fn sixteen_threads_put_while_a_seventeenth_takes(rt: HostRuntime) {
    assert!(rt; left_of_sixteen(&rt, rt.alloc(), 1595) == Some(5));
    assert!(rt; left_of_sixteen(&rt, rt.alloc(), 1600) == Some(0));
}

#[test]
fn two_threads_put_while_a_third_takes(rt: HostRuntime) {
    assert!(rt; counts(&rt, rt.alloc()) == Some([195, 5, 100, 100]));
}
