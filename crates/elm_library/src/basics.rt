/// The text of the library's module of this name.
pub const BASICS: &str = "native + : Int -> Int -> Int
native - : Int -> Int -> Int
native * : Int -> Int -> Int
native // : Int -> Int -> Int
native % : Int -> Int -> Int
native rem : Int -> Int -> Int
native negate : Int -> Int
native == : a -> a -> Bool
native /= : a -> a -> Bool
native < : comparable -> comparable -> Bool
native > : comparable -> comparable -> Bool
native <= : comparable -> comparable -> Bool
native >= : comparable -> comparable -> Bool
native compare : comparable -> comparable -> Order
native ++ : appendable -> appendable -> appendable
native toString : a -> String
opaque Int
opaque Char
opaque String
opaque List a

module Basics where

type Bool = True | False
type Order = LT | EQ | GT

identity x = x
always a _ = a
(<|) f x = f x
(|>) x f = f x
(<<) g f x = g (f x)
(>>) f g x = g (f x)
flip f b a = f a b
curry f a b = f (a, b)
uncurry f (a, b) = f a b
fst (a, _) = a
snd (_, b) = b
not b = if b then False else True
(&&) a b = if a then b else False
(||) a b = if a then True else b
xor a b = a /= b
otherwise = True
min x y = if x < y then x else y
max x y = if x > y then x else y
clamp lo hi n = if n < lo then lo else if n > hi then hi else n
abs n = if n < 0 then negate n else n
";
