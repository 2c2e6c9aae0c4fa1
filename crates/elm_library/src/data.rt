//! Values that may be missing, lists, chars and texts.

/// `Maybe`.
pub const MAYBE: &str = "module Maybe where

type Maybe a = Just a | Nothing

withDefault d m = case m of
  Just x -> x
  Nothing -> d
map f m = case m of
  Just x -> Just (f x)
  Nothing -> Nothing
andThen m f = case m of
  Just x -> f x
  Nothing -> Nothing
";

/// `Result`.
pub const RESULT: &str = "module Result where

type Result e a = Ok a | Err e

map f r = case r of
  Ok x -> Ok (f x)
  Err e -> Err e
toMaybe r = case r of
  Ok x -> Just x
  Err _ -> Nothing
";

/// `List`. The type belongs to `Basics`, and `::` is a constructor of this module by itself.
pub const LIST: &str = "module List where

foldl f b xs = case xs of
  [] -> b
  x :: rest -> foldl f (f x b) rest
reverse xs = foldl (::) [] xs
foldr f b xs = foldl f b (reverse xs)
isEmpty xs = case xs of
  [] -> True
  _ -> False
length xs = foldl (\\_ n -> n + 1) 0 xs
head xs = case xs of
  [] -> Nothing
  x :: _ -> Just x
tail xs = case xs of
  [] -> Nothing
  _ :: rest -> Just rest
map f xs = case xs of
  [] -> []
  x :: rest -> f x :: map f rest
map2 f xs ys = case (xs, ys) of
  (x :: p, y :: q) -> f x y :: map2 f p q
  _ -> []
filter p xs = case xs of
  [] -> []
  x :: rest -> if p x then x :: filter p rest else filter p rest
append a b = a ++ b
concat xss = foldr append [] xss
concatMap f xs = concat (map f xs)
any p xs = case xs of
  [] -> False
  x :: rest -> p x || any p rest
all p xs = case xs of
  [] -> True
  x :: rest -> p x && all p rest
member a xs = any (\\x -> x == a) xs
sum xs = foldl (+) 0 xs
product xs = foldl (*) 1 xs
take n xs = if n <= 0 then [] else case xs of
  [] -> []
  x :: rest -> x :: take (n - 1) rest
drop n xs = if n <= 0 then xs else case xs of
  [] -> []
  _ :: rest -> drop (n - 1) rest
repeat n x = if n <= 0 then [] else x :: repeat (n - 1) x
indexedMap f xs = map2 f [0 .. length xs - 1] xs
";

/// `Char`.
pub const CHAR: &str = "native toCode : Char -> Int
native fromCode : Int -> Char

module Char where

isDigit c = c >= '0' && c <= '9'
";

/// `String`.
pub const STRING: &str = "native length : String -> Int
native reverse : String -> String
native toList : String -> List Char
native fromList : List Char -> String
native toInt : String -> Result String Int

module String where

isEmpty s = s == \"\"
append a b = a ++ b
cons c s = fromList [c] ++ s
fromChar c = fromList [c]
concat ss = List.foldr append \"\" ss
join sep ss = case ss of
  [] -> \"\"
  s :: rest -> List.foldl (\\x acc -> acc ++ sep ++ x) s rest
repeat n s = if n <= 0 then \"\" else s ++ repeat (n - 1) s
";
