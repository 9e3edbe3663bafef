//! Divisions over PEs of unequal speed, for programs in C: bindings/c/include/tezgumi_speeds.h declares them.

ghost use Rattle.std.specs.Prelude.{◌≡◌, ◌≢◌, ◌↔◌, ◌⊎◌, ◌<◌, ◌≤◌, ◌+◌, ◌^◌, ℕ, length, sum, take, drop, pos, negsuc};
ghost use Rattle.speed_certificates.specs.Certificate.{IsTimeCertified};
ghost use Rattle.speed_certificates.specs.Flaws.{flaw_place, HasFlaw, IsFirst};
ghost use Rattle.speed_certificates.specs.Speeds.{ArePes, IsLeastTime};
ghost use Rattle.speed_certificates.specs.declared.flaw.TimeFlaw.{TimeFlaw};
ghost use Rattle.speed_partition.specs.Chosen.{IsChosen};
ghost use Rattle.speed_lists.specs.Lists.{pes_of, time_flaw_number, timed_of, AreCounted, IsDivisionAsked};
ghost use Rattle.lb_capi.specs.Speeds.{speed_status};

use speed_certificates::EndTime;
use speed_lists::{
    SpeedError, check_speed_lists, divide_speeds_into, number_of_time, place_of_time,
};
use std::alloc::Global;

// The status of a refusal.
fn speed_status_of(error: SpeedError) -> i32
    ensures { result ≡ speed_status error }
{
    match error {
        SpeedError::BadInput => -1,
        SpeedError::OutOfMemory => -2,
        SpeedError::BadLoad => -3,
        SpeedError::BadSpeed => -13,
    }
}

/// Divides a chain into a block for each PE, in order, so that the greatest end time (background + load) / speed of a PE is least. It
/// writes that time, as the work and the speed of the first PE that ends then, the cuts, and the stops of the fence that proves it,
/// with their number: one more than PEs, or 0 where the background of a PE takes so long by itself. That PE is `idle`. It returns
/// -1 where there is no PE or there are 2^32 - 1 or more, where there are 2^32 loads or more, where there are not as many speeds as
/// numbers of background, or where the lists for the cuts and the stops have not one entry more; then -13 where a speed is not 1 to
/// 1,000,000 or a background is above 2^47; then -3 where the loads add up to 2^63 or more; then -2 where memory was refused.
#[unsafe(no_mangle)]
pub extern "C" fn tezgumi_divide_speeds(
    alloc: Global,
    loads: &[u64],
    speeds: &[u32],
    background: &[u64],
    work: &mut u64,
    speed: &mut u32,
    cuts: &mut [u32],
    stops: &mut [u32],
    stops_count: &mut usize,
    idle: &mut u32,
) -> i32
    ensures statuses { (result ≡ pos 0) ⊎ (result ≡ negsuc 0) ⊎ (result ≡ negsuc 1) ⊎ (result ≡ negsuc 2) ⊎ (result ≡ negsuc 12) }
    ensures chosen { result ≡ pos 0 → IsChosen loads.now (pes_of speeds.now background.now)
        (timed_of {A = Unit {0}} (record { work = work.new; speed = speed.new }) cuts.new (take stops_count.new stops.new) idle.new) }
    ensures counted { result ≡ pos 0 → stops_count.new ≤ length speeds.now + 1 }
    ensures behind { result ≡ pos 0 → drop stops_count.new stops.new ≡ drop stops_count.new stops.old }
    ensures input { result ≡ negsuc 0 ↔ ¬ (IsDivisionAsked loads.now speeds.now background.now cuts.old stops.old) }
    ensures speed { result ≡ negsuc 12
        ↔ (IsDivisionAsked loads.now speeds.now background.now cuts.old stops.old × ¬ (ArePes (pes_of speeds.now background.now))) }
    ensures load { result ≡ negsuc 2
        ↔ (IsDivisionAsked loads.now speeds.now background.now cuts.old stops.old × ArePes (pes_of speeds.now background.now) × (2 ^ 63 ≤ sum loads.now)) }
    ensures kept { result ≢ pos 0 → (work.new ≡ work.old) × (speed.new ≡ speed.old) × (cuts.new ≡ cuts.old)
        × (stops.new ≡ stops.old) × (stops_count.new ≡ stops_count.old) × (idle.new ≡ idle.old) }
{
    match divide_speeds_into(alloc, loads, speeds, background, cuts, stops) {
        Ok(timed) => {
            *work = timed.time.work;
            *speed = timed.time.speed;
            *stops_count = timed.stops;
            *idle = timed.idle;
            0
        }
        Err(error) => speed_status_of(error),
    }
}

/// Checks a division over PEs of unequal speed, whoever made it. It returns 0 where its time is the greatest end time of a PE and no
/// division has a lower one, and otherwise the number of its first flaw, and writes the PE or the stop that this flaw names, or 0.
/// Loads, cuts and stops may be any lists; where there are no stops, the floor names the PE `idle`. It returns -1 where there is no
/// PE or there are 2^32 - 1 or more, or where there are not as many speeds as numbers of background; then -13 and -2 as
/// [`tezgumi_divide_speeds`] does.
#[unsafe(no_mangle)]
pub extern "C" fn tezgumi_check_speeds(
    alloc: Global,
    loads: &[u64],
    speeds: &[u32],
    background: &[u64],
    work: u64,
    speed: u32,
    cuts: &[u32],
    stops: &[u32],
    idle: u32,
    place: &mut u32,
) -> i32
    ensures right { result ≡ pos 0 → IsTimeCertified loads.now (pes_of speeds.now background.now)
        (timed_of {A = Unit {0}} (record { work = work; speed = speed }) cuts.now stops.now idle) }
    ensures least { result ≡ pos 0 → IsLeastTime loads.now (pes_of speeds.now background.now) cuts.now (record { work = work; speed = speed }) }
    ensures flawed { (n : ℕ) → result ≡ pos (n + 1) → (flaw : TimeFlaw) × (time_flaw_number flaw ≡ n + 1) × (flaw_place flaw ≡ place.new)
        × IsFirst (HasFlaw loads.now (pes_of speeds.now background.now)
        (timed_of {A = Unit {0}} (record { work = work; speed = speed }) cuts.now stops.now idle)) flaw }
    ensures refusals { (n : ℕ) → result ≡ negsuc n → (n < 2) ⊎ (n ≡ 12) }
    ensures input { result ≡ negsuc 0 ↔ ¬ (AreCounted speeds.now background.now) }
    ensures speed { result ≡ negsuc 12 ↔ (AreCounted speeds.now background.now × ¬ (ArePes (pes_of speeds.now background.now))) }
    ensures kept_right { result ≡ pos 0 → place.new ≡ place.old }
    ensures kept_refused { (n : ℕ) → result ≡ negsuc n → place.new ≡ place.old }
{
    let time = EndTime { work, speed };
    match check_speed_lists(alloc, loads, speeds, background, time, cuts, stops, idle) {
        Ok(None) => 0,
        Ok(Some(flaw)) => {
            *place = place_of_time(flaw);
            i32::from(number_of_time(flaw))
        }
        Err(error) => speed_status_of(error),
    }
}
