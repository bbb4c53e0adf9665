// Lines put together in an array, number by number, so that a list grows once in some lines.
ghost use Rattle.std.specs.Prelude.{◌≡◌, ◌<◌, ◌+◌, ◌≤◌, ◌/◌, ◌%◌, ℕ, [], ◌∷◌, ◌++◌, take, decimal, pos, OnOk, IfOk};
ghost use Rattle.std.specs.Fmt.{signed_decimal};
ghost use Rattle.saber_plan.specs.Answers as a;
ghost use Rattle.saber_plan.specs.Texts.{Behind};
ghost use Rattle.saber_digits.specs.Cells.{cells, drafted_text};

use crate::numbers::pair;
use itoa::Buffer;
use saber_plan::NoMemory;

// Each number below 1,000 in four bytes: its digits, spaces, and how many digits they are.
static SHORT: [u8; 4000] =
    *b"0  11  12  13  14  15  16  17  18  19  110 211 212 213 214 215 216 217 218 219 220 221 222 223 224 2\
    25 226 227 228 229 230 231 232 233 234 235 236 237 238 239 240 241 242 243 244 245 246 247 248 249 2\
    50 251 252 253 254 255 256 257 258 259 260 261 262 263 264 265 266 267 268 269 270 271 272 273 274 2\
    75 276 277 278 279 280 281 282 283 284 285 286 287 288 289 290 291 292 293 294 295 296 297 298 299 2\
    1003101310231033104310531063107310831093110311131123113311431153116311731183119312031213122312331243\
    1253126312731283129313031313132313331343135313631373138313931403141314231433144314531463147314831493\
    1503151315231533154315531563157315831593160316131623163316431653166316731683169317031713172317331743\
    1753176317731783179318031813182318331843185318631873188318931903191319231933194319531963197319831993\
    2003201320232033204320532063207320832093210321132123213321432153216321732183219322032213222322332243\
    2253226322732283229323032313232323332343235323632373238323932403241324232433244324532463247324832493\
    2503251325232533254325532563257325832593260326132623263326432653266326732683269327032713272327332743\
    2753276327732783279328032813282328332843285328632873288328932903291329232933294329532963297329832993\
    3003301330233033304330533063307330833093310331133123313331433153316331733183319332033213322332333243\
    3253326332733283329333033313332333333343335333633373338333933403341334233433344334533463347334833493\
    3503351335233533354335533563357335833593360336133623363336433653366336733683369337033713372337333743\
    3753376337733783379338033813382338333843385338633873388338933903391339233933394339533963397339833993\
    4003401340234033404340534063407340834093410341134123413341434153416341734183419342034213422342334243\
    4253426342734283429343034313432343334343435343634373438343934403441344234433444344534463447344834493\
    4503451345234533454345534563457345834593460346134623463346434653466346734683469347034713472347334743\
    4753476347734783479348034813482348334843485348634873488348934903491349234933494349534963497349834993\
    5003501350235033504350535063507350835093510351135123513351435153516351735183519352035213522352335243\
    5253526352735283529353035313532353335343535353635373538353935403541354235433544354535463547354835493\
    5503551355235533554355535563557355835593560356135623563356435653566356735683569357035713572357335743\
    5753576357735783579358035813582358335843585358635873588358935903591359235933594359535963597359835993\
    6003601360236033604360536063607360836093610361136123613361436153616361736183619362036213622362336243\
    6253626362736283629363036313632363336343635363636373638363936403641364236433644364536463647364836493\
    6503651365236533654365536563657365836593660366136623663366436653666366736683669367036713672367336743\
    6753676367736783679368036813682368336843685368636873688368936903691369236933694369536963697369836993\
    7003701370237033704370537063707370837093710371137123713371437153716371737183719372037213722372337243\
    7253726372737283729373037313732373337343735373637373738373937403741374237433744374537463747374837493\
    7503751375237533754375537563757375837593760376137623763376437653766376737683769377037713772377337743\
    7753776377737783779378037813782378337843785378637873788378937903791379237933794379537963797379837993\
    8003801380238033804380538063807380838093810381138123813381438153816381738183819382038213822382338243\
    8253826382738283829383038313832383338343835383638373838383938403841384238433844384538463847384838493\
    8503851385238533854385538563857385838593860386138623863386438653866386738683869387038713872387338743\
    8753876387738783879388038813882388338843885388638873888388938903891389238933894389538963897389838993\
    9003901390239033904390539063907390839093910391139123913391439153916391739183919392039213922392339243\
    9253926392739283929393039313932393339343935393639373938393939403941394239433944394539463947394839493\
    9503951395239533954395539563957395839593960396139623963396439653966396739683969397039713972397339743\
    9753976397739783979398039813982398339843985398639873988398939903991399239933994399539963997399839993";

// Writes four bytes.
#[inline(always)]
fn put_four(line: &mut [u8; 128], at: usize, four: [u8; 4])
    requires { at + 4 ≤ 128 }
    ensures { (k : ℕ) → k ≤ 4 → take (at + k) line.new ≡ take at line.old ++ take k four }
{
    line[at] = four[0];
    line[at + 1] = four[1];
    line[at + 2] = four[2];
    line[at + 3] = four[3];
}

// Writes a number below 1,000. What it writes behind the digits is to be written over.
#[inline(always)]
fn put_three(line: &mut [u8; 128], at: usize, number: u64) -> usize
    requires small { number < 1000 }
    requires room { at + 4 ≤ 128 }
    ensures written { take result line.new ≡ take at line.old ++ decimal number }
    ensures short { result ≤ at + 3 }
{
    let entry = number as usize * 4;
    let four = [
        SHORT[entry],
        SHORT[entry + 1],
        SHORT[entry + 2],
        SHORT[entry + 3],
    ];
    put_four(line, at, four);
    at + usize::from(four[3]) - 48
}

// The last three digits of a number.
#[inline(always)]
fn last_three(number: u64) -> [u8; 4]
    ensures { take 3 result ≡ (48 + number % 1000 / 100) ∷ (48 + number % 1000 % 100 / 10) ∷ (48 + number % 1000 % 100 % 10) ∷ [] }
{
    let last = number % 1000;
    let (tens, ones) = pair(last % 100);
    [b'0' + (last / 100) as u8, tens, ones, b' ']
}

// Writes a number below 1,000,000.
#[inline(always)]
fn put_six(line: &mut [u8; 128], at: usize, number: u64) -> usize
    requires small { number < 1000000 }
    requires room { at + 7 ≤ 128 }
    ensures written { take result line.new ≡ take at line.old ++ decimal number }
    ensures short { result ≤ at + 6 }
{
    if number < 1000 {
        return put_three(line, at, number);
    }
    let end = put_three(line, at, number / 1000);
    put_four(line, end, last_three(number));
    end + 3
}

// Writes a number of seven to twelve digits.
#[inline]
fn put_twelve(line: &mut [u8; 128], at: usize, number: u64) -> usize
    requires small { (1000000 ≤ number) × (number < 1000000000000) }
    requires room { at + 13 ≤ 128 }
    ensures written { take result line.new ≡ take at line.old ++ decimal number }
    ensures short { result ≤ at + 12 }
{
    let end = put_six(line, at, number / 1_000_000);
    put_four(line, end, last_three(number / 1000));
    put_four(line, end + 3, last_three(number));
    end + 6
}

// Writes a number of any length.
fn put_any(line: &mut [u8; 128], at: usize, number: i128) -> usize
    requires room { at + 40 ≤ 128 }
    ensures written { take result line.new ≡ take at line.old ++ signed_decimal number }
    ensures short { result ≤ at + 40 }
{
    let mut digits = Buffer::new();
    let text = digits.format(number).as_bytes();
    let end = at + text.len();
    line[at..end].copy_from_slice(text);
    end
}

/// Writes out what stands before a place of the array.
#[inline(never)]
pub fn flush(out: &mut Vec<u8>, line: &[u8; 128], at: usize) -> Result<(), NoMemory>
    requires { at ≤ 128 }
    ensures ok { OnOk result (out.new.items ≡ out.old.items ++ take at line.now) }
    ensures behind { Behind out.old.items out.new.items }
{
    out.extend_from_slice(&line[..at])
}

// A place with room for a cell behind it: where the array is nearly full, it is written out.
#[inline(always)]
fn with_room(out: &mut Vec<u8>, line: &[u8; 128], at: usize) -> Result<usize, NoMemory>
    requires { at ≤ 128 }
    ensures ok { IfOk result (λ p. drafted_text out.new.items line.now p ≡ drafted_text out.old.items line.now at) }
    ensures room { IfOk result (λ p. p ≤ 80) }
    ensures behind { Behind out.old.items out.new.items }
{
    if at <= 80 {
        return Ok(at);
    }
    flush(out, line, at)?;
    Ok(0)
}

// Writes a number that has more than six digits, or is less than 0.
#[inline(never)]
fn put_long(line: &mut [u8; 128], at: usize, number: i128) -> usize
    requires room { at + 40 ≤ 128 }
    ensures written { take result line.new ≡ take at line.old ++ signed_decimal number }
    ensures short { result ≤ at + 40 }
{
    if 1_000_000 <= number && number < 1_000_000_000_000 {
        return put_twelve(line, at, number as u64);
    }
    put_any(line, at, number)
}

/// Writes a number in decimal at a place of the array, and returns where it ends. What stood behind
/// the place may be written over.
#[inline(always)]
pub fn put_number(line: &mut [u8; 128], at: usize, number: i128) -> usize
    requires { at ≤ 81 }
    ensures written { take result line.new ≡ take at line.old ++ signed_decimal number }
    ensures short { result ≤ at + 40 }
{
    if 0 <= number && number < 1_000_000 {
        return put_six(line, at, number as u64);
    }
    put_long(line, at, number)
}

/// Writes a comma and a number behind what stands before a place of the array: one cell more of a
/// line. Returns where it ends.
#[inline(always)]
pub fn put_cell(
    out: &mut Vec<u8>,
    line: &mut [u8; 128],
    at: usize,
    number: i128,
) -> Result<usize, NoMemory>
    requires { at ≤ 128 }
    ensures ok { IfOk result (λ end. drafted_text out.new.items line.new end ≡ drafted_text out.old.items line.old at ++ 44 ∷ signed_decimal number) }
    ensures room { IfOk result (λ end. end ≤ 121) }
    ensures behind { Behind out.old.items out.new.items }
{
    let at = with_room(out, line, at)?;
    line[at] = b',';
    Ok(put_number(line, at + 1, number))
}

/// Begins a line with a text of at most 24 bytes. Returns where it ends.
#[inline(always)]
pub fn start_line(
    out: &mut Vec<u8>,
    line: &mut [u8; 128],
    at: usize,
    text: &[u8; 128],
    count: usize,
) -> Result<usize, NoMemory>
    requires at { at ≤ 128 }
    requires few { count ≤ 24 }
    ensures ok { IfOk result (λ end. drafted_text out.new.items line.new end ≡ drafted_text out.old.items line.old at ++ take count text.now) }
    ensures room { IfOk result (λ end. end ≤ 121) }
    ensures behind { Behind out.old.items out.new.items }
{
    let at = with_room(out, line, at)?;
    line[at..at + 24].copy_from_slice(&text[..24]);
    Ok(at + count)
}

/// Ends a line, and returns where the next one begins.
#[inline(always)]
pub fn end_line(line: &mut [u8; 128], at: usize) -> usize
    requires { at ≤ 121 }
    ensures written { take result line.new ≡ take at line.old ++ 10 ∷ [] }
    ensures room { result ≤ 128 }
{
    line[at] = b'\n';
    at + 1
}

// Writes each of some numbers with a comma before it, and returns where the last one ends.
#[inline(always)]
fn put_cells(
    out: &mut Vec<u8>,
    line: &mut [u8; 128],
    start: usize,
    numbers: &[i128],
) -> Result<usize, NoMemory>
    requires { start ≤ 121 }
    ensures ok { IfOk result (λ end. drafted_text out.new.items line.new end ≡ drafted_text out.old.items line.old start ++ cells numbers.now) }
    ensures room { IfOk result (λ end. end ≤ 121) }
    ensures behind { Behind out.old.items out.new.items }
{
    let mut at = start;
    for number in numbers {
        at = put_cell(out, line, at, *number)?;
    }
    Ok(at)
}

/// Writes an answer as a line of a window behind what `out` has: the window's number and those of
/// the answer in decimal, with commas between, and LF. Most lines fit in the array.
pub fn write_line(out: &mut Vec<u8>, window: u64, answer: &[i128]) -> Result<(), NoMemory>
    ensures ok { OnOk result (out.new.items ≡ out.old.items ++ a.line (pos window ∷ answer.now)) }
    ensures behind { Behind out.old.items out.new.items }
{
    let mut line = [0; 128];
    let first = put_number(&mut line, 0, i128::from(window));
    let last = put_cells(out, &mut line, first, answer)?;
    let end = end_line(&mut line, last);
    flush(out, &line, end)
}
