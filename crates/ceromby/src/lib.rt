// The calls for C and Rust. Each export ensures what the call that it wraps ensures, and takes any bytes.
#![tactic(auto)]

ghost use Rattle.std.specs.Prelude.{◌≡◌, length};
ghost use Rattle.floor.specs.Layouts.{name_number};
ghost use Rattle.floor.specs.Calls.{fresh_answer, book_answer, stop_answer, repair_answer, keep_answer, forget_answer, recall_answer, round_answer, read_answer};
ghost use Rattle.floor.specs.Anywhere.{anywhere_answer};
ghost use Rattle.floor.specs.Bookings.{list_answer, list_after};
ghost use Rattle.bound.specs.Answer.{bound_answer};
ghost use Rattle.image.specs.Image.{load_answer, write_answer, written};
ghost use Rattle.throughput.specs.Window.{feed_values};
ghost use Rattle.page_call.specs.Page.{page_answer, paged};
ghost use Rattle.plan.specs.Plans.{offer_answer, release_answer, report_answer};
ghost use Rattle.barge.specs.Barges.{barge_book, barge_book_anywhere, barge_stop, barge_repair, barge_round};

use barge::{Barge, BargeAnswer, BargePlaced, BargeRounded};
use bound::Bounded;
use floor::{Answer, Booking, Canister, Floor, Name, Placed, Reading, Report, Rounded, Settings};
use image::Written;
use plan::{Offered, Plan, Planned, Released};
use throughput::{FedValues, Throughput};

// 10,000 for the major number, 100 for the minor one and 1 for the patch: 0.1.0.
#[unsafe(no_mangle)]
pub extern "C" fn ceromby_version() -> u32
    ensures { result ≡ 100 }
{
    100
}

#[unsafe(no_mangle)]
pub extern "C" fn ceromby_fresh(settings: Settings) -> Answer
    ensures { result ≡ fresh_answer settings }
{
    calls::fresh(settings)
}

#[unsafe(no_mangle)]
pub extern "C" fn ceromby_book(floor: Floor, tile: u32, canister: Canister) -> Answer
    ensures { result ≡ book_answer floor tile canister }
{
    calls::book(floor, tile, canister)
}

#[unsafe(no_mangle)]
pub extern "C" fn ceromby_book_anywhere(floor: Floor, tile: u32, number: u32) -> Placed
    ensures { result ≡ anywhere_answer floor tile number }
{
    calls::book_anywhere(floor, tile, number)
}

#[unsafe(no_mangle)]
pub extern "C" fn ceromby_book_list(floor: Floor, list: &mut [Booking]) -> Answer
    ensures { (result ≡ list_answer floor list.old) × (list.new ≡ list_after floor list.old) }
{
    calls::book_list(floor, list)
}

#[unsafe(no_mangle)]
pub extern "C" fn ceromby_stop(floor: Floor, tile: u32) -> Answer
    ensures { result ≡ stop_answer floor tile }
{
    calls::stop(floor, tile)
}

#[unsafe(no_mangle)]
pub extern "C" fn ceromby_repair(floor: Floor, tile: u32) -> Answer
    ensures { result ≡ repair_answer floor tile }
{
    calls::repair(floor, tile)
}

#[unsafe(no_mangle)]
pub extern "C" fn ceromby_round(floor: Floor) -> Rounded
    ensures { result ≡ round_answer floor }
{
    calls::round(floor)
}

#[unsafe(no_mangle)]
pub extern "C" fn ceromby_read(floor: Floor, tile: u32) -> Reading
    ensures { result ≡ read_answer floor tile }
{
    calls::read(floor, tile)
}

#[unsafe(no_mangle)]
pub extern "C" fn ceromby_bound(floor: Floor) -> Bounded
    ensures { result ≡ bound_answer floor }
{
    calls::bound(floor)
}

#[unsafe(no_mangle)]
pub extern "C" fn ceromby_keep(floor: Floor, name: Name) -> Answer
    ensures { result ≡ keep_answer floor (name_number name.letters) }
{
    calls::keep(floor, name)
}

#[unsafe(no_mangle)]
pub extern "C" fn ceromby_forget(floor: Floor, name: Name) -> Answer
    ensures { result ≡ forget_answer floor (name_number name.letters) }
{
    calls::forget(floor, name)
}

#[unsafe(no_mangle)]
pub extern "C" fn ceromby_recall(floor: Floor, name: Name) -> Answer
    ensures { result ≡ recall_answer floor (name_number name.letters) }
{
    calls::recall(floor, name)
}

#[unsafe(no_mangle)]
pub extern "C" fn ceromby_load(bytes: &[u8]) -> Answer
    ensures { result ≡ load_answer bytes.now }
{
    image_calls::load(bytes)
}

#[unsafe(no_mangle)]
pub extern "C" fn ceromby_write(floor: Floor, buffer: &mut [u8]) -> Written
    ensures { (result ≡ write_answer floor (length buffer.old)) × (buffer.new ≡ written floor buffer.old) }
{
    image_calls::write(floor, buffer)
}

#[unsafe(no_mangle)]
pub extern "C" fn ceromby_feed(throughput: Throughput, count: u32) -> FedValues
    ensures { result ≡ feed_values throughput count }
{
    throughput::feed_values(throughput, count)
}

#[unsafe(no_mangle)]
pub extern "C" fn ceromby_page(floor: Floor, buffer: &mut [u8]) -> Written
    ensures { (result ≡ page_answer floor (length buffer.old)) × (buffer.new ≡ paged floor buffer.old) }
{
    page_call::page(floor, buffer)
}

#[unsafe(no_mangle)]
pub extern "C" fn ceromby_plan_offer(plan: Plan) -> Offered
    ensures { result ≡ offer_answer plan }
{
    plan_calls::offer(plan)
}

#[unsafe(no_mangle)]
pub extern "C" fn ceromby_plan_release(plan: Plan, floor: Floor, label: u32) -> Released
    ensures { result ≡ release_answer plan floor label }
{
    plan_calls::release(plan, floor, label)
}

#[unsafe(no_mangle)]
pub extern "C" fn ceromby_plan_report(plan: Plan, report: Report) -> Planned
    ensures { result ≡ report_answer plan report }
{
    plan_calls::report(plan, report)
}

#[unsafe(no_mangle)]
pub extern "C" fn ceromby_barge_book(
    barge: Barge,
    floor: u32,
    tile: u32,
    canister: Canister,
) -> BargeAnswer
    ensures { result ≡ barge_book barge floor tile canister }
{
    barge_calls::book(barge, floor, tile, canister)
}

#[unsafe(no_mangle)]
pub extern "C" fn ceromby_barge_book_anywhere(
    barge: Barge,
    floor: u32,
    tile: u32,
    number: u32,
) -> BargePlaced
    ensures { result ≡ barge_book_anywhere barge floor tile number }
{
    barge_calls::book_anywhere(barge, floor, tile, number)
}

#[unsafe(no_mangle)]
pub extern "C" fn ceromby_barge_stop(barge: Barge, floor: u32, tile: u32) -> BargeAnswer
    ensures { result ≡ barge_stop barge floor tile }
{
    barge_calls::stop(barge, floor, tile)
}

#[unsafe(no_mangle)]
pub extern "C" fn ceromby_barge_repair(barge: Barge, floor: u32, tile: u32) -> BargeAnswer
    ensures { result ≡ barge_repair barge floor tile }
{
    barge_calls::repair(barge, floor, tile)
}

#[unsafe(no_mangle)]
pub extern "C" fn ceromby_barge_round(barge: Barge, floor: u32) -> BargeRounded
    ensures { result ≡ barge_round barge floor }
{
    barge_calls::round(barge, floor)
}
