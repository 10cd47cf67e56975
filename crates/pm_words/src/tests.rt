ghost use Rattle.std.specs.Prelude.{◌≡◌, ◌^◌, ◌<◌, length, IfOk, IfSome};
ghost use Rattle.pm_words.specs.Word.{IsWord, sum_of};

use super::*;
use std::alloc::{AllocError, Global};
use std::test::Fail;

// The sum of the letters, where each is at least -1.
fn word_sum(word: &[i32]) -> Option<i64>
    requires { length word.now < 2 ^ 32 }
    ensures letters { IfSome result (λ s. IsWord word.now) }
    ensures sum { IfSome result (λ s. s ≡ sum_of word.now) }
{
    let mut sum: i64 = 0;
    'letters: for letter in word {
        if *letter < -1 {
            return None;
        }
        sum += i64::from(*letter);
    }
    Some(sum)
}

// The tree of a word that is good for 1.
fn tree_of_good_word(alloc: Global, word: &[i32]) -> Result<Option<PlaneTree>, AllocError>
    requires { length word.now < 2 ^ 32 }
{
    if word_sum(word) != Some(-1) {
        return Ok(None);
    }
    let starts = good_starts(alloc, word, 1)?;
    if starts[0] != 0 {
        return Ok(None);
    }
    let tree = tree_of_word(alloc, word)?;
    Ok(Some(tree))
}

#[test]
fn starts_turns_and_trees(rt: HostRuntime) -> Result<(), Fail> {
    let starts = good_starts(rt.alloc(), &[-1, 1, 0, -1], 1)?;
    assert_eq!(rt; starts.as_slice(), [1].as_slice());
    let rotated = rotate(rt.alloc(), &[3, 1, 0, 2], 1)?;
    assert_eq!(rt; rotated.as_slice(), [1, 0, 2, 3].as_slice());
    let tree = tree_of_good_word(rt.alloc(), &[1, 0, -1, -1])?.ok_or("no tree")?;
    let word = word_of_tree(rt.alloc(), &tree)?;
    assert_eq!(rt; word.as_slice(), [1, 0, -1, -1].as_slice());
    Ok(())
}

#[test]
fn a_path_of_a_million_nodes(rt: HostRuntime) -> Result<(), Fail> {
    let mut path = vec![in rt.alloc(); 0i32; 1_000_000]?;
    path[999_999] = -1;
    let tree = tree_of_good_word(rt.alloc(), &path)?.ok_or("no tree")?;
    let word = word_of_tree(rt.alloc(), &tree)?;
    assert_eq!(rt; word.as_slice(), path.as_slice());
    Ok(())
}

// The good starts of the words with the sum -1 and -2, each word with the letters that the digits of its number
// less one are, lowest first.
const STARTS: &[u8] =
    b"0010102001011221203003001010200101122122331331122122333230404004001004004001010200101122103003001010\
2001011221223313311221223332344344144124414411221223313311221223332334434442444223332334444305050050\
0505005001005005001010200101050500500100500500101020010112210300300101020010112212233133112212040400\
4001004004001010200101122103003001010200101122122331331122122333234434414412441441122122331331122122\
3332334434442444223332345455455155455455155125515511221355355155125515511221223313311221223332344344\
1441244144112212233133112212233323344344424442233323344443455455455545545552555235535552555223332334\
4344424442233323344443445545554555535555334444340606006060060060600600100600600101060600600606006001\
0060060010102001010606006001006006001010200101122103003001010200101122120606006006060060010060060010\
1020010106060060010060060010102001011221030030010102001011221223313311221204040040010040040010102001\
0112210300300101020010112212233133112212233323443441441244144112212233133112212233323050500500505005\
0010050050010102001010505005001005005001010200101122103003001010200101122122331331122120404004001004\
0040010102001011221030030010102001011221223313311221223332344344144124414411221223313311221223332334\
4344424442233323454554551554554551551255155112213553551551255155112212233133112212233323443441441244\
1441122122331331122122333233443444244422333233444434554554555455455525552355355525552233323344344424\
4422333233444434565665665656656616656656616612661661565665661665665661661266166112213663661661266166\
1122122331331122124646646616646646616612661661122136636616612661661122122331331122122333234434414412\
4414411221223313311221223332334434442444223332345455455155455455155125515511221355355155125515511221\
2233133112212233323443441441244144112212233133112212233323344344424442233323344443455455455545545552\
5552355355525552233323344344424442233323344443445545554555535555334444345656656656656656656665665666\
2666566566566656656662666236636662666223332466466466646646662666236636662666223332334434442444223332\
3344443455455455545545552555235535552555223332334434442444223332334444344554555455553555533444434455\
5554566566566656656665666656656665666636666346646664666636666334444344554555455553555533444434455555\
45";

// The word whose letters are the digits of the number in base 4 less one, lowest first.
fn numbered_word(alloc: Global, number: u32, size: u8) -> Result<Vec<i32>, AllocError>
    ensures { IfOk result (λ v. length v.items ≡ size) }
{
    let mut word = Vec::new(alloc);
    let mut digits = number;
    'digits: for _ in 0..size {
        word.push((digits % 4) as i32 - 1)?;
        digits /= 4;
    }
    Ok(word)
}

#[test]
fn all_short_words(rt: HostRuntime) -> Result<(), Fail> {
    let mut wanted = STARTS.iter();
    let lengths = [
        (1u8, 4u32),
        (2, 16),
        (3, 64),
        (4, 256),
        (5, 1024),
        (6, 4096),
        (7, 16384),
    ];
    'lengths: for (length, words) in lengths {
        'words: for number in 0..words {
            let word = numbered_word(rt.alloc(), number, length)?;
            let goal = match word_sum(&word) {
                Some(-1) => 1,
                Some(-2) => 2,
                _ => continue 'words,
            };
            'starts: for start in good_starts(rt.alloc(), &word, goal)?.iter() {
                assert_eq!(rt;
                    wanted.next().map(|digit| u32::from(*digit)),
                    Some(start.wrapping_add(48))
                );
            }
        }
    }
    assert_eq!(rt; wanted.next().is_none(), true);
    Ok(())
}
