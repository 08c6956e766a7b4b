// The number of a Gregorian date from 1 January 2000 to 31 December 2099.
ghost use Rattle.std.specs.Prelude.{◌≡◌, true, ◌≤◌};
ghost use Rattle.catalogue.specs.Dates.{is_leap, month_days, is_day, days_before_month, day_number, day_of, is_last_end, end_of};
ghost use Rattle.pool_terms.specs.Contract.{date_as};

// A date as it is written: any three numbers.
#[derive(Clone, Copy, PartialEq, Eq)]
pub struct Date {
    pub year: u64,
    pub month: u64,
    pub day: u64,
}

const FIRST_YEAR: u64 = 2000;

const LAST_YEAR: u64 = 2099;

const LAST_END: Date = Date {
    year: 2100,
    month: 1,
    day: 1,
};

const CENTURY_DAYS: u64 = 36525;

// The days of January to December, without a leap day.
const MONTH_DAYS: [u64; 12] = [31, 28, 31, 30, 31, 30, 31, 31, 30, 31, 30, 31];

// The days of the months before January to December, without a leap day.
const DAYS_BEFORE_MONTH: [u64; 12] = [0, 31, 59, 90, 120, 151, 181, 212, 243, 273, 304, 334];

fn is_leap(year: u64) -> bool
    ensures { result ≡ is_leap year }
{
    year % 4 == 0 && (year % 100 != 0 || year % 400 == 0)
}

fn month_days(year: u64, month: u64) -> u64
    requires { (1 ≤ month) × (month ≤ 12) }
    ensures { result ≡ month_days year month }
{
    MONTH_DAYS[(month - 1) as usize] + u64::from(month == 2 && is_leap(year))
}

// The days of a year's months before this one.
fn days_before_month(year: u64, month: u64) -> u64
    requires { (1 ≤ month) × (month ≤ 12) }
    ensures { result ≡ days_before_month year month }
{
    DAYS_BEFORE_MONTH[(month - 1) as usize] + u64::from(2 < month && is_leap(year))
}

// Of the years from 2000 on every fourth one is a leap year up to 2099, the first among them.
fn day_number(date: Date) -> u64
    requires { is_day (date_as date) ≡ true }
    ensures { result ≡ day_number (date_as date) }
{
    let years = date.year - FIRST_YEAR;
    365 * years + (years + 3) / 4 + days_before_month(date.year, date.month) + (date.day - 1)
}

// Whether the date is a day from 1 January 2000 to 31 December 2099.
fn is_day(date: Date) -> bool
    ensures { result ≡ is_day (date_as date) }
{
    (FIRST_YEAR..=LAST_YEAR).contains(&date.year)
        && (1..=12).contains(&date.month)
        && (1..=month_days(date.year, date.month)).contains(&date.day)
}

// A day of a term, or the day asked for; none where the date is bad.
pub fn day_of(date: Date) -> Option<u64>
    ensures { result ≡ day_of (date_as date) }
{
    is_day(date).then(|| day_number(date))
}

// 1 January 2100.
fn is_last_end(date: Date) -> bool
    ensures { result ≡ is_last_end (date_as date) }
{
    date == LAST_END
}

// The end of a term; none where the date is bad.
pub fn end_of(date: Date) -> Option<u64>
    ensures { result ≡ end_of (date_as date) }
{
    if is_last_end(date) {
        Some(CENTURY_DAYS)
    } else {
        day_of(date)
    }
}
